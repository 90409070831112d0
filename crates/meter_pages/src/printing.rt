// A sheet as text for people.
use crate::book;
use crate::book::{Answered, Column, Run, Tagged};
use board_file::board::Board;
use cache::slots::Counts;
use host::answer::Report;
use host::listing;
use host::listing::LineRecord;
use sheets::sheet::Sheet;
use std::{fmt, io};

// A figure of all lines, of ordinary and of protected ones.
#[derive(Clone, Copy, Debug, PartialEq, Eq)]
struct Figure {
    name: &'static str,
    all: u64,
    ordinary: u64,
    protected: u64,
}

impl fmt::Display for Figure {
    fn fmt<W: fmt::Write>(&self, f: &mut fmt::Formatter<W>) -> fmt::Result {
        let all = Column(self.all);
        let ordinary = Column(self.ordinary);
        let protected = Column(self.protected);
        write!(f, "{:<20}{all}{ordinary}{protected}", self.name)
    }
}

// The four counts, by kind of line; only protected lines have MACs.
fn figures(to: &impl Print, s: &Sheet) -> io::Result<()> {
    let k = s.report.counts;
    let by = s.kinds;
    println!(to; "                           all  ordinary protected")?;
    for figure in [
        Figure {
            name: "lines filled",
            all: k.filled,
            ordinary: by.ordinaryfilled,
            protected: by.protectedfilled,
        },
        Figure {
            name: "dirty lines written",
            all: k.written,
            ordinary: by.ordinarywritten,
            protected: by.protectedwritten,
        },
        Figure {
            name: "MACs checked",
            all: k.checked,
            ordinary: 0,
            protected: k.checked,
        },
        Figure {
            name: "MACs made",
            all: k.made,
            ordinary: 0,
            protected: k.made,
        },
    ] {
        println!(to; "{figure}")?;
    }
    Ok(())
}

// A slot of the cache.
fn slot(to: &impl Print, i: usize, x: LineRecord) -> io::Result<()> {
    if x.used == 0 {
        return println!(to; "slot {i}: empty");
    }
    let line = x.line;
    let tag = Tagged(x.tag);
    let state = if x.dirty == 0 { "clean" } else { "dirty" };
    println!(to; "slot {i}: line {line}, tag {tag}, {state}")
}

// The slots of a directory.
pub fn slots(to: &impl Print, dir: &[u32]) -> io::Result<()> {
    for i in 0..dir.len() {
        slot(to, i, listing::row_at(dir, i))?;
    }
    Ok(())
}

// A sheet: how it was made, its figures and its slots.
pub fn sheet(to: &impl Print, b: &Board, s: &Sheet) -> io::Result<()> {
    book::heading(to, Run::of(s))?;
    println!(to)?;
    body(to, b, s)
}

// A sheet below its heading: the board, the figures and the board's slots.
pub fn body(to: &impl Print, b: &Board, s: &Sheet) -> io::Result<()> {
    println!(to;
        "board: {} bytes of memory, {} slots; at most {} instructions\n",
        b.memory, b.slots, b.steps
    )?;
    println!(to; "steps               {}", Column(s.report.steps))?;
    println!(to; "fault or 0           {}", Answered(s.report.answer))?;
    figures(to, s)?;
    println!(to)?;
    if let Some(first) = s.slots.get(..b.slots) {
        slots(to, first)?;
    }
    println!(to)
}

// What a call reported, in a line.
pub fn report(to: &impl Print, x: Report) -> io::Result<()> {
    let answer = Answered(x.answer);
    let steps = x.steps;
    let Counts {
        filled,
        written,
        checked,
        made,
    } = x.counts;
    println!(to;
        "answer {answer}, steps {steps}, filled {filled}, written {written}, checked {checked}, made {made}"
    )
}
