// Run and interrupt.
ghost use Rattle.std.specs.Prelude.{[]};
ghost use Rattle.instructions.specs.Calls.{run, interrupt};
ghost use Rattle.cache.specs.Held.{SameBuffers};
ghost use Rattle.machine.specs.Lent.{given};
ghost use Rattle.host.specs.Outcome.{Leaves};

use crate::answer;
use crate::answer::{Answer, Report};
use answers::faults;
use cache::buffers::Buffers;
use cache::slots;
use registers::record::Processor;
use registers::suspend;

// At most n instructions, up to the first that faults.
pub fn run(p: Processor, buffers: &mut Buffers, n: u64) -> Answer
    ensures same { SameBuffers buffers.old buffers.new }
    ensures leaves { Leaves (run n) (given p buffers.old) result.report []
        (given result.processor buffers.new) }
{
    let q = p.special;
    let mut r = p.r;
    let own = entry::call::steps(n);
    if let Err(no) = answer::refusal_on(p, buffers, own) {
        return answer::refused(Processor { r, special: q }, no);
    }
    let x = machine::run::run(&mut r, q, buffers, n);
    Answer {
        processor: Processor {
            r,
            special: x.special,
        },
        report: Report {
            answer: faults::number_of(x.fault),
            steps: x.steps,
            counts: x.counts,
        },
    }
}

// An interrupt: an active thread is suspended, and the machine goes on at its handler.
pub fn interrupt(p: Processor, buffers: &mut Buffers) -> Answer
    ensures same { SameBuffers buffers.old buffers.new }
    ensures leaves { Leaves interrupt (given p buffers.old) result.report []
        (given result.processor buffers.new) }
{
    if let Err(no) = answer::refusal_on(p, buffers, Ok(())) {
        return answer::refused(p, no);
    }
    let q = p.special;
    let mut r = p.r;
    let s = suspend::enter(&mut r, q, 32);
    answer::done(Processor { r, special: s }, slots::none())
}
