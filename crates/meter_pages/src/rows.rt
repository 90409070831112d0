// Sheets as rows: CSV for programs, and the table over cache sizes.
use crate::book::{Column, Run};
use cache::slots::Counts;
use host::listing;
use host::listing::LineRecord;
use sheets::sheet::{Kinds, Sheet};
use std::io;

// The first line of the CSV of sheets.
pub fn header(to: &impl Print) -> io::Result<()> {
    println!(to;
        "run,sheet,slots,steps,answer,filled,written,checked,made,\
        ordinary_filled,protected_filled,ordinary_written,protected_written"
    )
}

// A sheet as a row of a run, 1, 2 or 3.
// Kept: the run is a number, since a row says whatever number it is given (what may not change: rows::row and rows::slots).
pub fn row(to: &impl Print, run: u64, slots: usize, s: &Sheet) -> io::Result<()> {
    let named = Run::numbered(run, s);
    let x = s.report;
    let Counts {
        filled,
        written,
        checked,
        made,
    } = x.counts;
    let Kinds {
        ordinaryfilled,
        protectedfilled,
        ordinarywritten,
        protectedwritten,
    } = s.kinds;
    print!(to; "{run},{named},{slots},{},{}", x.steps, x.answer)?;
    print!(to; ",{filled},{written},{checked},{made}")?;
    println!(to; ",{ordinaryfilled},{protectedfilled},{ordinarywritten},{protectedwritten}")
}

// The first line of the CSV of slots.
pub fn slot_header(to: &impl Print) -> io::Result<()> {
    println!(to; "\nrun,sheet,slot,used,line,tag,dirty")
}

// A slot as a row.
fn slot(to: &impl Print, run: u64, named: Run, i: usize, x: LineRecord) -> io::Result<()> {
    let LineRecord {
        used,
        line,
        tag,
        dirty,
    } = x;
    println!(to; "{run},{named},{i},{used},{line},{tag},{dirty}")
}

// The first slots of a sheet as rows.
pub fn slots(to: &impl Print, run: u64, n: usize, s: &Sheet) -> io::Result<()> {
    let named = Run::numbered(run, s);
    for i in 0..n.min(64) {
        slot(to, run, named, i, listing::row_at(&s.slots, i))?;
    }
    Ok(())
}

// The head of the table over cache sizes.
pub fn table_head(to: &impl Print) -> io::Result<()> {
    println!(to;
        "CACHE SIZES: each from the file anew, cold = from an empty cache behind a power cut, \
        warm = the same run again with the cache as it was left"
    )?;
    println!(to;
        "              lines filled       dirty written        MACs checked           MACs made"
    )?;
    println!(to;
        "slots         cold      warm      cold      warm      cold      warm      cold      warm"
    )
}

// A line of the table over cache sizes.
pub fn table_line(to: &impl Print, slots: usize, c: Counts, w: Counts) -> io::Result<()> {
    print!(to; "{slots:>2}      ")?;
    for (cold, warm) in [
        (c.filled, w.filled),
        (c.written, w.written),
        (c.checked, w.checked),
        (c.made, w.made),
    ] {
        print!(to; "{}{}", Column(cold), Column(warm))?;
    }
    println!(to)
}
