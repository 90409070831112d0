// Cold beside warm over cache sizes: a table for people, or rows.
use meter_options::Format;
use meter_pages::book::Run;
use meter_pages::rows;
use meter_runs::BoardFile;
use sheets::running::Sheets;
use std::io;

// The head of the table or of the CSV.
#[inline(never)]
fn head(to: &impl Print, format: Format) -> io::Result<()> {
    match format {
        Format::Text => rows::table_head(to),
        Format::Csv => rows::header(to),
    }
}

// A cache size in the table or the CSV.
#[inline(never)]
fn size(to: &impl Print, slots: usize, s: &Sheets, format: Format) -> io::Result<()> {
    match format {
        Format::Text => { rows::table_line(to, slots, s.cold.report.counts, s.warm.report.counts) }
        Format::Csv => {
            rows::row(to, Run::of(&s.cold).number(), slots, &s.cold)?;
            rows::row(to, Run::of(&s.warm).number(), slots, &s.warm)
        }
    }
}

// Cold beside warm for caches of 1, 2, 4 and so on to 64 slots.
#[inline(never)]
pub(crate) fn all(to: &impl Print, file: &BoardFile, format: Format) -> io::Result<()> {
    head(to, format)?;
    for slots in [1, 2, 4, 8, 16, 32, 64] {
        size(to, slots, &file.both(slots), format)?;
    }
    Ok(())
}
