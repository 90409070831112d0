// Run: at most n instructions, up to the first that faults.
ghost use Rattle.std.specs.Prelude.{◌≡◌, ◌≤◌, length};
ghost use Rattle.answers.specs.Numbers.{fault_in};
ghost use Rattle.registers.specs.Map.{drk_held};
ghost use Rattle.cache.specs.Lent.{counts_in, Fit};
ghost use Rattle.cache.specs.Held.{SameBuffers, memory_in};
ghost use Rattle.machine.specs.Steps.{machine_on};
ghost use Rattle.machine.specs.Runs.{Runs};

use crate::step;
use answers::faults::Fault;
use cache::buffers::Buffers;
use cache::slots;
use cache::slots::Counts;
use registers::record::Special;

// The fault that ended it, where one did, the steps that were done, the registers after them but R0 to R31, and what was
// counted.
#[derive(Clone, Copy, Debug, PartialEq, Eq)]
pub struct Ran {
    pub fault: Option<Fault>,
    pub steps: u64,
    pub special: Special,
    pub counts: Counts,
}

// Run at most n instructions. The registers are lent, so that a call copies them in and out once.
pub fn run(r: &mut [u64; 32], q: Special, buffers: &mut Buffers, n: u64) -> Ran
    requires in_bounds { (128 ≤ length buffers.old.mem.now) × (length buffers.old.dir.now ≤ 64)
        × (n ≤ 10000) }
    requires fit { Fit (memory_in (drk_held q) buffers.old) }
    ensures same { SameBuffers buffers.old buffers.new }
    ensures runs { Runs n (machine_on r.old q buffers.old) (fault_in result.fault) result.steps
        (counts_in result.counts) (machine_on r.new result.special buffers.new) }
{
    let mut special = q;
    let mut counts = slots::none();
    for i in 0..n {
        let x = step::step(r, special, buffers);
        special = x.special;
        counts = slots::add(counts, x.counts);
        if x.fault.is_some() {
            return Ran {
                fault: x.fault,
                steps: i + 1,
                special,
                counts,
            };
        }
    }
    Ran {
        fault: None,
        steps: n,
        special,
        counts,
    }
}
