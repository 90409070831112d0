// The listing, by value: its refusal, and the record of each slot.
ghost use Rattle.std.specs.Prelude.{◌≡◌};
ghost use Rattle.answers.specs.Numbers.{refusal_in};
ghost use Rattle.directory.specs.Numbers.{entry_of};
ghost use Rattle.directory.specs.Direct.{direct};
ghost use Rattle.instructions.specs.Board.{document_board};
ghost use Rattle.instructions.specs.Listing.{listing_refusal};
ghost use Rattle.machine.specs.Lent.{machine_in, handed};
ghost use Rattle.host.specs.Row.{row_of};

use crate::answer;
use answers::refusals::Refusal;
use directory::number;
use registers::record::Processor;

// A record of the row: used (1) or empty (0), line, tag, dirty (1) or clean (0).
// Kept: numbers for the tag and for yes and no: C's record.
#[repr(C)]
#[derive(Clone, Copy, Debug, PartialEq, Eq)]
pub struct LineRecord {
    pub used: u32,
    pub line: u32,
    pub tag: u32,
    pub dirty: u32,
}

// The refusal of a listing into a row of so many records, where there is one.
// Kept: the four buffers apart, since C lends a listing shared slices.
pub fn refusal(
    p: Processor,
    mem: &[u8],
    macs: &[u8],
    cache: &[u8],
    dir: &[u32],
    rows: usize,
) -> Result<(), Refusal>
    ensures { refusal_in result ≡ listing_refusal document_board (machine_in (handed p mem.now macs.now cache.now dir.now)) rows }
{
    let own = entry::call::row(rows, dir.len());
    answer::refusal(p, mem.len(), macs.len(), cache.len(), dir, own)
}

// What a directory number says.
fn row_of(d: u32) -> LineRecord
    ensures { result ≡ row_of (entry_of d) }
{
    LineRecord {
        used: number::used(d) as u32,
        line: number::line(d),
        tag: number::tag(d).number(),
        dirty: number::dirty(d) as u32,
    }
}

// The record of slot i; all zero where there is no such slot.
pub fn row_at(dir: &[u32], i: usize) -> LineRecord
    ensures { result ≡ row_of (direct.look dir.now i) }
{
    row_of(dir.get(i).copied().unwrap_or(0))
}
