// The listing: a lent row of line records, one per slot, is filled from the directory.
// Kept: the record and the four slices apart: C's interface.
ghost use Rattle.machine.specs.Lent.{handed};
ghost use Rattle.board.specs.Listed.{Lists};

use host::answer;
use host::listing::LineRecord;
use machine::answer::Report;
use registers::record::Processor;

// The record of each slot goes into the row; a refused row keeps its records.
#[unsafe(no_mangle)]
pub extern "C" fn hq_list_slots(
    p: &Processor,
    mem: &[u8],
    macs: &[u8],
    cache: &[u8],
    dir: &[u32],
    rows: &mut [LineRecord],
) -> Report
    ensures { Lists (handed p.now mem.now macs.now cache.now dir.now) rows.old result
        rows.new }
{
    if let Err(no) = host::listing::refusal(*p, mem, macs, cache, dir, rows.len()) {
        return answer::uncounted(no.number());
    }
    for (i, row) in rows.iter_mut().enumerate() {
        *row = host::listing::row_at(dir, i);
    }
    answer::uncounted(0)
}
