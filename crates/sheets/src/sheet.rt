// One sheet: whether it is the cold or the warm one, what the run reported, the figures by kind of line, and the
// slots behind the run.
ghost use Rattle.std.specs.Prelude.{◌≡◌, ◌≤◌};
ghost use Rattle.sheets.specs.Figures.{KindsOf, FilledIn};

use cache::buffers::Buffers;
use machine::answer::Report;
use std::array;

// Lines filled and dirty lines written, of ordinary and of protected lines.
#[derive(Clone, Copy, Debug, PartialEq, Eq)]
pub struct Kinds {
    pub ordinaryfilled: u64,
    pub protectedfilled: u64,
    pub ordinarywritten: u64,
    pub protectedwritten: u64,
}

// A sheet.
// Kept: `warm` is a flag, as `Says` and `FilledIn` have it; an enum of two runs is no plainer, since a third run's sheet
// is warm too, and `Run` of the pages has all three.
#[derive(Clone, Copy, Debug, PartialEq, Eq)]
pub struct Sheet {
    pub warm: bool,
    pub report: Report,
    pub kinds: Kinds,
    pub slots: [u32; 64],
}

impl Kinds {
    // The figures by kind of line: a protected line that is filled is checked, one that is written gets a MAC.
    fn of(x: Report) -> Kinds
        requires { (x.counts.checked ≤ x.counts.filled) × (x.counts.made ≤ x.counts.written) }
        ensures { KindsOf x.counts.filled x.counts.written x.counts.checked x.counts.made result }
    {
        let k = x.counts;
        Kinds {
            ordinaryfilled: k.filled - k.checked,
            protectedfilled: k.checked,
            ordinarywritten: k.written - k.made,
            protectedwritten: k.made,
        }
    }
}

impl Sheet {
    // A sheet of what a run reported and left in the directory: its first 64 numbers, and 0 past its end.
    pub(crate) fn of(warm: bool, x: Report, buffers: &Buffers) -> Sheet
        requires { (x.counts.checked ≤ x.counts.filled) × (x.counts.made ≤ x.counts.written) }
        ensures { FilledIn warm x buffers.now.dir.now result }
    {
        let dir: &[u32] = buffers.dir;
        Sheet {
            warm,
            report: x,
            kinds: Kinds::of(x),
            slots: array::from_fn(|i| dir.get(i).copied().unwrap_or(0)),
        }
    }
}
