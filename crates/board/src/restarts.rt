// Reboot and power cut, on the record behind a reference.
// Kept: the record and the four slices apart, and calls that are alike but for their names: C's interface.
ghost use Rattle.std.specs.Prelude.{[]};
ghost use Rattle.instructions.specs.Calls.{reboot, power_cut};
ghost use Rattle.machine.specs.Lent.{before, after};
ghost use Rattle.host.specs.Outcome.{Leaves};

use cache::buffers::Buffers;
use machine::answer::Report;
use registers::record::Processor;

// Everything is written back, every slot emptied, and the record cleared but for DRK and SRH.
#[unsafe(no_mangle)]
pub extern "C" fn hq_reboot(
    p: &mut Processor,
    mem: &mut [u8],
    macs: &mut [u8],
    cache: &mut [u8],
    dir: &mut [u32],
) -> Report
    ensures { Leaves reboot (before p.old mem macs cache dir) result []
        (after p.new mem macs cache dir) }
{
    let mut buffers = Buffers {
        mem,
        macs,
        cache,
        dir,
    };
    let a = host::restarts::reboot(*p, &mut buffers);
    *p = a.processor;
    a.report
}

// Every slot is lost, without writing back, and the record cleared but for DRK and SRH.
#[unsafe(no_mangle)]
pub extern "C" fn hq_power_cut(
    p: &mut Processor,
    mem: &mut [u8],
    macs: &mut [u8],
    cache: &mut [u8],
    dir: &mut [u32],
) -> Report
    ensures { Leaves power_cut (before p.old mem macs cache dir) result []
        (after p.new mem macs cache dir) }
{
    let mut buffers = Buffers {
        mem,
        macs,
        cache,
        dir,
    };
    let a = host::restarts::power_cut(*p, &mut buffers);
    *p = a.processor;
    a.report
}
