// A board's runs, each on memory laid anew from its file.
#![tactic(auto)]

pub mod room;

ghost use Rattle.std.specs.Prelude.{◌≤◌};
ghost use Rattle.board_file.specs.Boards.{Within};
ghost use Rattle.cache.specs.Held.{SameBuffers};

use board_file::board::Board;
use board_numbers::errors::Misread;
use cache::buffers::Buffers;
use host::answer::Report;
use host::dropping;
use laying::lines;
use registers::record;
use registers::record::{Processor, Special};
use room::Room;
use sheets::running;
use sheets::running::Sheets;
use sheets::sheet::Sheet;

// A board's file: its text, and the board that it says, whose sizes document 01 allows.
#[derive(Clone, Copy, Debug, PartialEq, Eq)]
pub struct BoardFile<'a> {
    pub text: &'a [u8],
    pub board: Board,
    ghost within: { Within board },
}

// A run with the cache kept, and what dropping a line before it reported.
#[derive(Clone, Copy, Debug, PartialEq, Eq)]
pub struct Later {
    pub dropped: Option<Report>,
    pub sheet: Sheet,
}

// The registers, the pc, the DRK and the SRH that the file says; everything else zero.
pub fn start(b: Board) -> Processor {
    let [srh0, srh1, srh2, srh3] = b.srh;
    Processor {
        r: b.registers,
        special: Special {
            pc: b.pc,
            drkhi: b.drk.high,
            drklo: b.drk.low,
            srh0,
            srh1,
            srh2,
            srh3,
            ..record::zero().special
        },
    }
}

// `laid`, `both` and `third` are not inlined, so that each gives its room back when it is done: a run has the stack of one.
//
// Kept: `laid`, `both` and `third` are alike in two lines, the room and what is lent of it; a function that takes the
// step behind them as a closure is longer than those.
impl BoardFile<'_> {
    // The error of laying the board's lines, where there is one.
    #[inline(never)]
    pub fn laid(&self) -> Result<(), Misread> {
        let mut room = Room::empty();
        let Buffers { mem, macs, .. } = room.lend(&self.board, 0);
        lines::load(self.text, self.board.drk, mem, macs)
    }

    // The cold and the warm sheet of the board that is laid into lent buffers, as far as its lines can be.
    fn both_on(&self, lent: &mut Buffers) -> Sheets
        ensures { SameBuffers lent.old lent.new }
    {
        let _ = lines::load(self.text, self.board.drk, lent.mem, lent.macs);
        running::both(start(self.board), lent, self.board.steps)
    }

    // The cold and the warm sheet with so many slots.
    #[inline(never)]
    pub fn both(&self, slots: usize) -> Sheets
        requires { slots ≤ 64 }
    {
        let mut room = Room::empty();
        let mut lent = room.lend(&self.board, slots);
        self.both_on(&mut lent)
    }

    // One run more from a record, with the cache as it is.
    fn once_more(&self, left: Processor, lent: &mut Buffers) -> Sheet
        ensures { SameBuffers lent.old lent.new }
    {
        let again = running::again(start(self.board), left);
        running::once_more(again, lent, self.board.steps).sheet
    }

    // The sheet of a third run, with the cache as the warm run left it but for a line that is dropped where that is
    // asked for; a line past memory drops nothing.
    #[inline(never)]
    pub fn third(&self, line: Option<u64>) -> Later {
        let mut room = Room::empty();
        let mut lent = room.lend(&self.board, self.board.slots);
        let left = self.both_on(&mut lent).processor;
        let dropped = line.map(|line| drop_line(left, line, &mut lent));
        let sheet = self.once_more(left, &mut lent);
        Later { dropped, sheet }
    }
}

// What dropping a line reports.
fn drop_line(left: Processor, line: u64, lent: &mut Buffers) -> Report
    ensures { SameBuffers lent.old lent.new }
{
    dropping::evict_line(left, lent, line).report
}
