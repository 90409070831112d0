// The bus, on the record behind a reference: a line read or written, a MAC entry written; each first evicts that line.
// Kept: the record and the four slices apart, and calls that are alike but for their names: C's interface.
ghost use Rattle.instructions.specs.Calls.{bus_read, bus_write, bus_mac};
ghost use Rattle.machine.specs.Lent.{before, after};
ghost use Rattle.host.specs.Outcome.{Leaves};

use cache::buffers::Buffers;
use machine::answer::Report;
use registers::record::Processor;

// Line n of memory goes to a buffer of 64 bytes.
#[unsafe(no_mangle)]
pub extern "C" fn hq_bus_read(
    p: &mut Processor,
    mem: &mut [u8],
    macs: &mut [u8],
    cache: &mut [u8],
    dir: &mut [u32],
    line: &mut [u8],
    n: u64,
) -> Report
    ensures { Leaves (bus_read n line.old) (before p.old mem macs cache dir)
        result line.new (after p.new mem macs cache dir) }
{
    let mut buffers = Buffers {
        mem,
        macs,
        cache,
        dir,
    };
    let a = host::transfers::bus_read(*p, &mut buffers, line, n);
    *p = a.processor;
    a.report
}

// A buffer of 64 bytes goes to line n of memory.
#[unsafe(no_mangle)]
pub extern "C" fn hq_bus_write(
    p: &mut Processor,
    mem: &mut [u8],
    macs: &mut [u8],
    cache: &mut [u8],
    dir: &mut [u32],
    line: &[u8],
    n: u64,
) -> Report
    ensures { Leaves (bus_write n line.now) (before p.old mem macs cache dir)
        result line.now (after p.new mem macs cache dir) }
{
    let mut buffers = Buffers {
        mem,
        macs,
        cache,
        dir,
    };
    let a = host::transfers::bus_write(*p, &mut buffers, line, n);
    *p = a.processor;
    a.report
}

// A buffer of 16 bytes goes to line n's entry in the MAC area.
#[unsafe(no_mangle)]
pub extern "C" fn hq_bus_write_mac(
    p: &mut Processor,
    mem: &mut [u8],
    macs: &mut [u8],
    cache: &mut [u8],
    dir: &mut [u32],
    mac: &[u8],
    n: u64,
) -> Report
    ensures { Leaves (bus_mac n mac.now) (before p.old mem macs cache dir)
        result mac.now (after p.new mem macs cache dir) }
{
    let mut buffers = Buffers {
        mem,
        macs,
        cache,
        dir,
    };
    let a = host::transfers::bus_write_mac(*p, &mut buffers, mac, n);
    *p = a.processor;
    a.report
}
