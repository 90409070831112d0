// One instruction: fetch, decode, data access, effect.
ghost use Rattle.std.specs.Prelude.{◌≡◌, ◌≤◌, length};
ghost use Rattle.answers.specs.Numbers.{fault_in};
ghost use Rattle.registers.specs.Map.{drk_held};
ghost use Rattle.cache.specs.Lent.{counts_in, Fit};
ghost use Rattle.cache.specs.Held.{SameBuffers, memory_in};
ghost use Rattle.machine.specs.Steps.{Steps, machine_on};

use crate::phase;
use answers::faults::Fault;
use cache::buffers::Buffers;
use cache::slots;
use cache::slots::Counts;
use registers::decide::Wish;
use registers::record::Special;
use registers::{decide, faults, finish};

// The fault of a step, where it has one, the registers after it but R0 to R31, and what was counted.
#[derive(Clone, Copy, Debug, PartialEq, Eq)]
pub struct Stepped {
    pub fault: Option<Fault>,
    pub special: Special,
    pub counts: Counts,
}

pub fn step(r: &mut [u64; 32], q: Special, buffers: &mut Buffers) -> Stepped
    requires in_bounds { 128 ≤ length buffers.old.mem.now }
    requires fit { Fit (memory_in (drk_held q) buffers.old) }
    ensures same { SameBuffers buffers.old buffers.new }
    ensures steps { Steps (machine_on r.old q buffers.old) (fault_in result.fault)
        (counts_in result.counts) (machine_on r.new result.special buffers.new) }
{
    let m = buffers.mem.len() as u64;
    let drk = q.drk();
    let fetch = faults::fetch_fault(r, q, m);
    let got = phase::fetch(drk, buffers, fetch.err(), q.mode, q.pc);
    let wish = decide::decide(r, q, m, fetch, got.number);
    let data = phase::access(drk, buffers, wish.unwrap_or(Wish::Nothing));
    let counts = slots::add(got.counts, data.counts);
    let end = finish::finish(r, q, m, wish.err(), got.number, data.number);
    Stepped {
        fault: end.fault,
        special: end.special,
        counts,
    }
}
