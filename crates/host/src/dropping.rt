// Lines dropped: one line, or all of them.
// Kept: the head of each call is one `if let`; a head that takes the work as a closure would take each work's `requires`
// too, and is no plainer.
ghost use Rattle.std.specs.Prelude.{[]};
ghost use Rattle.instructions.specs.Calls.{evict_line, write_back_all};
ghost use Rattle.cache.specs.Held.{SameBuffers};
ghost use Rattle.machine.specs.Lent.{given};
ghost use Rattle.host.specs.Outcome.{Leaves};

use crate::answer;
use crate::answer::Answer;
use cache::buffers::Buffers;
use registers::record::Processor;

// Line n is evicted where its slot holds it.
pub fn evict_line(p: Processor, buffers: &mut Buffers, n: u64) -> Answer
    ensures same { SameBuffers buffers.old buffers.new }
    ensures leaves { Leaves (evict_line n) (given p buffers.old) result.report []
        (given result.processor buffers.new) }
{
    let own = entry::call::line(buffers.mem.len(), n);
    if let Err(no) = answer::refusal_on(p, buffers, own) {
        return answer::refused(p, no);
    }
    answer::done(p, buffers.drop_line(p.special.drk(), n as usize))
}

// Everything is written back, and every slot emptied.
pub fn write_back(p: Processor, buffers: &mut Buffers) -> Answer
    ensures same { SameBuffers buffers.old buffers.new }
    ensures leaves { Leaves write_back_all (given p buffers.old) result.report []
        (given result.processor buffers.new) }
{
    if let Err(no) = answer::refusal_on(p, buffers, Ok(())) {
        return answer::refused(p, no);
    }
    answer::done(p, buffers.evict_all(p.special.drk()))
}
