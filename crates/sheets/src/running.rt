// The cold run, the warm run behind it, and their two sheets.
ghost use Rattle.std.specs.Prelude.{◌≡◌, [], true, false};
ghost use Rattle.cache.specs.Held.{SameBuffers};
ghost use Rattle.machine.specs.Lent.{machine_in, given};
ghost use Rattle.host.specs.Outcome.{result_of, Gives};
ghost use Rattle.instructions.specs.Calls.{run};
ghost use Rattle.sheets.specs.Runs.{cold_run, warm_run, StartsAgain};
ghost use Rattle.sheets.specs.Says.{Says};

use crate::sheet::Sheet;
use cache::buffers::Buffers;
use host::{restarts, running as calls};
use machine::answer::Answer;
use registers::record;
use registers::record::Processor;

// Both sheets, and the record that the warm run left.
#[derive(Clone, Copy)]
pub struct Sheets {
    pub cold: Sheet,
    pub warm: Sheet,
    pub processor: Processor,
}

// The sheet of one run more, and the record that it left.
#[derive(Clone, Copy)]
pub struct Kept {
    pub sheet: Sheet,
    pub processor: Processor,
}

// A run from an empty cache: a power cut empties it, and the record starts as given.
fn cold(p: Processor, buffers: &mut Buffers, n: u64) -> Answer
    ensures same { SameBuffers buffers.old buffers.new }
    ensures gives { Gives (cold_run n (machine_in (given p buffers.old))) result.report []
        (machine_in (given result.processor buffers.new)) }
{
    restarts::power_cut(p, buffers);
    calls::run(p, buffers, n)
}

// The record to start from again, with DRK and SRH as the run before left them.
pub fn again(p: Processor, left: Processor) -> Processor
    ensures { StartsAgain p left result }
{
    record::keeping(left, p)
}

// A run of n instructions from an empty cache, the same run again with the cache as it was left, and their sheets.
pub fn both(p: Processor, buffers: &mut Buffers, n: u64) -> Sheets
    ensures same { SameBuffers buffers.old buffers.new }
    ensures cold { Says false (cold_run n (machine_in (given p buffers.old))) result.cold }
    ensures warm { Says true (warm_run n (machine_in (given p buffers.old))) result.warm }
    ensures left { machine_in (given result.processor buffers.new)
        ≡ (warm_run n (machine_in (given p buffers.old))).machine }
{
    let first = cold(p, buffers, n);
    let empty_start = Sheet::of(false, first.report, buffers);
    let second = calls::run(again(p, first.processor), buffers, n);
    let kept_start = Sheet::of(true, second.report, buffers);
    Sheets {
        cold: empty_start,
        warm: kept_start,
        processor: second.processor,
    }
}

// A run of n instructions with the cache as it is lent, and its sheet.
pub fn once_more(p: Processor, buffers: &mut Buffers, n: u64) -> Kept
    ensures same { SameBuffers buffers.old buffers.new }
    ensures says { Says true (result_of (run n) (machine_in (given p buffers.old))) result.sheet }
    ensures left { machine_in (given result.processor buffers.new)
        ≡ (result_of (run n) (machine_in (given p buffers.old))).machine }
{
    let x = calls::run(p, buffers, n);
    Kept {
        sheet: Sheet::of(true, x.report, buffers),
        processor: x.processor,
    }
}
