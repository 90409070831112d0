// The bus: a line read or written, a MAC entry written; each first evicts that line.
ghost use Rattle.instructions.specs.Calls.{bus_read, bus_write, bus_mac};
ghost use Rattle.cache.specs.Held.{SameBuffers};
ghost use Rattle.machine.specs.Lent.{given};
ghost use Rattle.host.specs.Outcome.{Leaves};

use crate::answer;
use crate::answer::Answer;
use cache::buffers::Buffers;
use registers::record::Processor;

// Line n of memory goes to a buffer of 64 bytes.
pub fn bus_read(p: Processor, buffers: &mut Buffers, line: &mut [u8], n: u64) -> Answer
    ensures same { SameBuffers buffers.old buffers.new }
    ensures leaves { Leaves (bus_read n line.old) (given p buffers.old)
        result.report line.new (given result.processor buffers.new) }
{
    let own = entry::call::transfer(buffers.mem.len(), n, line.len(), 64);
    if let Err(no) = answer::refusal_on(p, buffers, own) {
        return answer::refused(p, no);
    }
    answer::done(p, bus::read(p.special.drk(), buffers, n as usize, line))
}

// A buffer of 64 bytes goes to line n of memory.
pub fn bus_write(p: Processor, buffers: &mut Buffers, line: &[u8], n: u64) -> Answer
    ensures same { SameBuffers buffers.old buffers.new }
    ensures leaves { Leaves (bus_write n line.now) (given p buffers.old)
        result.report line.now (given result.processor buffers.new) }
{
    let own = entry::call::transfer(buffers.mem.len(), n, line.len(), 64);
    if let Err(no) = answer::refusal_on(p, buffers, own) {
        return answer::refused(p, no);
    }
    answer::done(p, bus::write(p.special.drk(), buffers, n as usize, line))
}

// A buffer of 16 bytes goes to line n's entry in the MAC area.
//
// Kept: no plainer as one function with bus_write: it would take the call that `leaves` names, the size and the work.
pub fn bus_write_mac(p: Processor, buffers: &mut Buffers, mac: &[u8], n: u64) -> Answer
    ensures same { SameBuffers buffers.old buffers.new }
    ensures leaves { Leaves (bus_mac n mac.now) (given p buffers.old)
        result.report mac.now (given result.processor buffers.new) }
{
    let own = entry::call::transfer(buffers.mem.len(), n, mac.len(), 16);
    if let Err(no) = answer::refusal_on(p, buffers, own) {
        return answer::refused(p, no);
    }
    answer::done(p, bus::write_mac(p.special.drk(), buffers, n as usize, mac))
}
