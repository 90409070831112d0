// The words of the meter: which run a sheet is of, what a call answered, a line's tag, and a number in a column.
ghost use Rattle.std.specs.Prelude.{◌≡◌};
ghost use Rattle.lists.specs.If.{if};
ghost use Rattle.meter_pages.specs.declared.book.Run.TheVariants.{Cold, Warm};
ghost use Rattle.meter_pages.specs.Runs.{run_number};

use answers::faults::Fault;
use answers::refusals::Refusal;
use sheets::sheet::Sheet;
use std::{fmt, io};

// The run that a sheet is of: the first, the second, or the third with the cache kept.
#[derive(Clone, Copy, Debug, PartialEq, Eq)]
pub enum Run {
    Cold = 1,
    Warm = 2,
    Kept = 3,
}

impl Run {
    // The run that a sheet of the first or of the second run says it is of.
    pub fn of(sheet: &Sheet) -> Run
        ensures { result ≡ if sheet.now.warm Warm Cold }
    {
        if sheet.warm { Run::Warm } else { Run::Cold }
    }

    // The run that a row says a sheet is of, by the number it is given: a warm sheet's third is the kept one.
    pub(crate) fn numbered(run: u64, sheet: &Sheet) -> Run {
        if sheet.warm && run == Run::Kept.number() {
            return Run::Kept;
        }
        Run::of(sheet)
    }

    // The run's number in a row.
    pub fn number(self) -> u64
        ensures { result ≡ run_number self }
    {
        self as u64
    }
}

impl fmt::Display for Run {
    fn fmt<W: fmt::Write>(&self, f: &mut fmt::Formatter<W>) -> fmt::Result {
        f.write_str(match self {
            Run::Cold => "cold",
            Run::Warm => "warm",
            Run::Kept => "kept",
        })
    }
}

// What a call answered: no fault, a fault or a refusal, by number and name; nothing where a number has no name.
// Kept: a number, as it stands in the report, a record for C.
#[derive(Clone, Copy, Debug, PartialEq, Eq)]
pub(crate) struct Answered(pub u64);

impl fmt::Display for Answered {
    fn fmt<W: fmt::Write>(&self, f: &mut fmt::Formatter<W>) -> fmt::Result {
        let n = self.0;
        if n == 0 {
            return f.write_str("0 (no fault)");
        }
        if let Ok(fault) = Fault::try_from(n) {
            return write!(f, "{fault}");
        }
        match u32::try_from(n)
            .ok()
            .and_then(|n| Refusal::try_from(n).ok())
        {
            Some(refusal) => write!(f, "{refusal}"),
            None => Ok(()),
        }
    }
}

// A tag by its name; nothing where a number has none.
// Kept: a number, as it stands in the listing's record, which is for C.
#[derive(Clone, Copy, Debug, PartialEq, Eq)]
pub(crate) struct Tagged(pub u32);

impl fmt::Display for Tagged {
    fn fmt<W: fmt::Write>(&self, f: &mut fmt::Formatter<W>) -> fmt::Result {
        f.write_str(match self.0 {
            0 => "none",
            1 => "secure instruction",
            2 => "secure data",
            _ => "",
        })
    }
}

// A number to the right of a column of ten; one of six digits or more behind a single blank.
#[derive(Clone, Copy, Debug, PartialEq, Eq)]
pub(crate) struct Column(pub u64);

impl fmt::Display for Column {
    fn fmt<W: fmt::Write>(&self, f: &mut fmt::Formatter<W>) -> fmt::Result {
        let n = self.0;
        if n < 100_000 {
            write!(f, "{n:>10}")
        } else {
            write!(f, " {n}")
        }
    }
}

// Writes how the sheet of a run was made, and which it is.
pub fn heading(to: &impl Print, run: Run) -> io::Result<()> {
    to.print(match run {
        Run::Cold => "COLD SHEET: the run from an empty cache, behind a power cut",
        Run::Warm => "WARM SHEET: the same run again, with the cache as the run before left it",
        Run::Kept => {
            "KEPT SHEET: the same run a third time, with the cache as the warm run left it"
        }
    })
}
