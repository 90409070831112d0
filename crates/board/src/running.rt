// Run and interrupt, on the record behind a reference.
// Kept: the record and the four slices apart, and calls that are alike but for their names: C's interface.
ghost use Rattle.std.specs.Prelude.{[]};
ghost use Rattle.instructions.specs.Calls.{run, interrupt};
ghost use Rattle.machine.specs.Lent.{before, after};
ghost use Rattle.host.specs.Outcome.{Leaves};

use cache::buffers::Buffers;
use machine::answer::Report;
use registers::record::Processor;

// At most n instructions, up to the first that faults; a single step is n = 1.
#[unsafe(no_mangle)]
pub extern "C" fn hq_run(
    p: &mut Processor,
    mem: &mut [u8],
    macs: &mut [u8],
    cache: &mut [u8],
    dir: &mut [u32],
    n: u64,
) -> Report
    ensures { Leaves (run n) (before p.old mem macs cache dir) result [] (after p.new
        mem macs cache dir) }
{
    let mut buffers = Buffers {
        mem,
        macs,
        cache,
        dir,
    };
    let a = host::running::run(*p, &mut buffers, n);
    *p = a.processor;
    a.report
}

// An interrupt: an active thread is suspended, and the machine goes on at its handler.
#[unsafe(no_mangle)]
pub extern "C" fn hq_interrupt(
    p: &mut Processor,
    mem: &mut [u8],
    macs: &mut [u8],
    cache: &mut [u8],
    dir: &mut [u32],
) -> Report
    ensures { Leaves interrupt (before p.old mem macs cache dir) result []
        (after p.new mem macs cache dir) }
{
    let mut buffers = Buffers {
        mem,
        macs,
        cache,
        dir,
    };
    let a = host::running::interrupt(*p, &mut buffers);
    *p = a.processor;
    a.report
}
