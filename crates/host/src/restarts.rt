// Reboot and power cut: the record is cleared but for DRK and SRH.
ghost use Rattle.std.specs.Prelude.{[]};
ghost use Rattle.instructions.specs.Calls.{reboot, power_cut};
ghost use Rattle.cache.specs.Held.{SameBuffers};
ghost use Rattle.machine.specs.Lent.{given};
ghost use Rattle.host.specs.Outcome.{Leaves};

use crate::answer;
use crate::answer::Answer;
use cache::buffers::Buffers;
use cache::slots;
use registers::record;
use registers::record::Processor;

// Everything is written back, every slot emptied, and the record cleared.
pub fn reboot(p: Processor, buffers: &mut Buffers) -> Answer
    ensures same { SameBuffers buffers.old buffers.new }
    ensures leaves { Leaves reboot (given p buffers.old) result.report []
        (given result.processor buffers.new) }
{
    if let Err(no) = answer::refusal_on(p, buffers, Ok(())) {
        return answer::refused(p, no);
    }
    let k = buffers.evict_all(p.special.drk());
    answer::done(record::cleared(p), k)
}

// Every slot is lost, without writing back, and the record cleared.
pub fn power_cut(p: Processor, buffers: &mut Buffers) -> Answer
    ensures same { SameBuffers buffers.old buffers.new }
    ensures leaves { Leaves power_cut (given p buffers.old) result.report []
        (given result.processor buffers.new) }
{
    if let Err(no) = answer::refusal_on(p, buffers, Ok(())) {
        return answer::refused(p, no);
    }
    buffers.lose_all();
    answer::done(record::cleared(p), slots::none())
}
