// Lines dropped, on the record behind a reference: one line, or all of them.
// Kept: the record and the four slices apart, and calls that are alike but for their names: C's interface.
ghost use Rattle.std.specs.Prelude.{[]};
ghost use Rattle.instructions.specs.Calls.{evict_line, write_back_all};
ghost use Rattle.machine.specs.Lent.{before, after};
ghost use Rattle.host.specs.Outcome.{Leaves};

use cache::buffers::Buffers;
use machine::answer::Report;
use registers::record::Processor;

// Line n is evicted where its slot holds it.
#[unsafe(no_mangle)]
pub extern "C" fn hq_evict_line(
    p: &mut Processor,
    mem: &mut [u8],
    macs: &mut [u8],
    cache: &mut [u8],
    dir: &mut [u32],
    n: u64,
) -> Report
    ensures { Leaves (evict_line n) (before p.old mem macs cache dir) result []
        (after p.new mem macs cache dir) }
{
    let mut buffers = Buffers {
        mem,
        macs,
        cache,
        dir,
    };
    let a = host::dropping::evict_line(*p, &mut buffers, n);
    *p = a.processor;
    a.report
}

// Everything is written back, and every slot emptied.
#[unsafe(no_mangle)]
pub extern "C" fn hq_write_back(
    p: &mut Processor,
    mem: &mut [u8],
    macs: &mut [u8],
    cache: &mut [u8],
    dir: &mut [u32],
) -> Report
    ensures { Leaves write_back_all (before p.old mem macs cache dir) result []
        (after p.new mem macs cache dir) }
{
    let mut buffers = Buffers {
        mem,
        macs,
        cache,
        dir,
    };
    let a = host::dropping::write_back(*p, &mut buffers);
    *p = a.processor;
    a.report
}
