// The operations of a script, each by its statement.
#![tactic(auto)]

ghost use Rattle.cache.specs.Held.{SameBuffers};

use board_text::names::{Kind, Operation};
use board_text::statement::Statement;
use cache::buffers::Buffers;
use host::answer::Answer;
use host::{dropping, restarts, running, transfers};
use registers::record::Processor;
use std::io;

// The words of a statement behind its line, as 64 bytes.
fn bytes(s: &Statement) -> [u8; 64] {
    let mut line = [0u8; 64];
    let (places, _) = line.as_chunks_mut::<4>();
    for (place, n) in places.iter_mut().zip(s.numbers.iter().skip(1)) {
        let low = n.value() & 0xffff_ffff;
        *place = (low as u32).to_le_bytes();
    }
    line
}

// Writes the bytes of a line, in the order in which they lie.
fn write_line(to: &impl Print, line: &[u8]) -> io::Result<()> {
    print!(to; "    bytes ")?;
    for x in line {
        print!(to; "{x:02x}")?;
    }
    println!(to)
}

// A line read over the bus, and its bytes written.
fn bus_read(to: &impl Print, n: u64, p: Processor, lent: &mut Buffers) -> io::Result<Answer>
    ensures { SameBuffers lent.old lent.new }
{
    let mut line = [0u8; 64];
    let answer = transfers::bus_read(p, lent, &mut line, n);
    write_line(to, &line)?;
    Ok(answer)
}

// One operation, by its statement; a statement that names no other operation cuts the power. An error is one of writing.
pub fn done(to: &impl Print, s: &Statement, p: Processor, lent: &mut Buffers) -> io::Result<Answer>
    ensures { SameBuffers lent.old lent.new }
{
    let n = s.value(0);
    let Kind::Operation(operation) = s.kind else {
        return Ok(restarts::power_cut(p, lent));
    };
    let answer = match operation {
        Operation::Run => running::run(p, lent, n),
        Operation::Interrupt => running::interrupt(p, lent),
        Operation::BusRead => bus_read(to, n, p, lent)?,
        Operation::BusWrite => transfers::bus_write(p, lent, &bytes(s), n),
        Operation::BusMac => transfers::bus_write_mac(p, lent, &bytes(s)[..16], n),
        Operation::Drop => dropping::evict_line(p, lent, n),
        Operation::WriteBack => dropping::write_back(p, lent),
        Operation::Reboot => restarts::reboot(p, lent),
        Operation::PowerCut | Operation::List => restarts::power_cut(p, lent),
    };
    Ok(answer)
}
