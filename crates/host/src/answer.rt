// The head of every call, which is its refusal, and what a call gives that is refused or done.
ghost use Rattle.std.specs.Prelude.{◌≡◌, length};
ghost use Rattle.answers.specs.Numbers.{refusal_number, refusal_in};
ghost use Rattle.model.specs.Log.{no_counts};
ghost use Rattle.cache.specs.Lent.{counts_in};
ghost use Rattle.host.specs.Outcome.{Reports, Answers, lowest};

use answers::refusals::Refusal;
use cache::buffers::Buffers;
use cache::slots;
use cache::slots::Counts;
pub use machine::answer::{Answer, Report};
use registers::record::Processor;

// The report of a call that has no steps.
// Kept: n is a number, as C's record of the report has it.
fn report(n: u32, k: Counts) -> Report
    ensures { Reports n (counts_in k) result }
{
    Report {
        answer: n as u64,
        steps: 0,
        counts: k,
    }
}

// The report of a call that counts nothing.
// Kept: n is a number, as C's record of the report has it.
pub fn uncounted(n: u32) -> Report
    ensures { Reports n no_counts result }
{
    report(n, slots::none())
}

// A refusal: nothing done, nothing counted.
pub(crate) fn refused(p: Processor, refusal: Refusal) -> Answer
    ensures { Answers p (refusal_number refusal) no_counts result }
{
    Answer {
        processor: p,
        report: uncounted(refusal.number()),
    }
}

// A call done, other than run.
pub(crate) fn done(p: Processor, k: Counts) -> Answer
    ensures { Answers p 0 (counts_in k) result }
{
    Answer {
        processor: p,
        report: report(0, k),
    }
}

// The lowest refusal: 101 to 104 of what is lent, 105 of the record, or the call's own.
//
// Kept: the buffers' lengths apart, since C lends a listing shared slices (hq_list_slots), and Buffers holds `&mut`.
pub(crate) fn refusal(
    p: Processor,
    mem: usize,
    macs: usize,
    cache: usize,
    dir: &[u32],
    own: Result<(), Refusal>,
) -> Result<(), Refusal>
    ensures { refusal_in result ≡ lowest p mem macs cache dir.now (refusal_in own) }
{
    entry::lent(mem, macs, cache, dir)?;
    entry::call::record(p.r[0], p.special.mode)?;
    own
}

// The same of buffers that are lent as one.
pub(crate) fn refusal_on(
    p: Processor,
    buffers: &Buffers,
    own: Result<(), Refusal>,
) -> Result<(), Refusal>
    ensures { refusal_in result ≡ lowest p (length buffers.now.mem.now) (length buffers.now.macs.now)
        (length buffers.now.cache.now) buffers.now.dir.now (refusal_in own) }
{
    refusal(
        p,
        buffers.mem.len(),
        buffers.macs.len(),
        buffers.cache.len(),
        buffers.dir,
        own,
    )
}
