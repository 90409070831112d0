// What can be wrong with a board file; docs/METER.md lists the errors by number and name.
ghost use Rattle.std.specs.Prelude.{◌≡◌};
ghost use Rattle.board_numbers.specs.Errors.{number_of_error};

use std::error::Error;
use std::fmt;

// An error of a board file.
#[derive(Clone, Copy, Debug, PartialEq, Eq)]
pub enum FileError {
    UnknownWord = 201,
    NoNumber = 202,
    TooLarge = 203,
    Registers = 204,
    LeftOver = 205,
    TooFew = 206,
    NotInMemory = 207,
    LineTwice = 208,
    NoLineOpen = 209,
    LineFull = 210,
    SaidTwice = 211,
    NoMemory = 212,
    NoSlots = 213,
    MemorySize = 214,
    SlotCount = 215,
    TooManySteps = 216,
    RegisterZero = 217,
}

impl FileError {
    // The error's number, from 201 on.
    pub fn number(self) -> u32
        ensures { result ≡ number_of_error self }
    {
        self as u32
    }

    // The error's name and a sentence that says when it comes.
    fn sentence(self) -> &'static str {
        match self {
            FileError::UnknownWord => {
                "unknown-word: the line begins with no statement and no instruction"
            }
            FileError::NoNumber => {
                "no-number: a number is expected, as 12, -3 or 0x1f, or a register, as r5"
            }
            FileError::TooLarge => "too-large: a number is larger than its place allows",
            FileError::Registers => {
                "registers: a register stands where a number is expected, or a number where a register is"
            }
            FileError::LeftOver => "left-over: there are more numbers than the statement takes",
            FileError::TooFew => "too-few: there are fewer numbers than the statement takes",
            FileError::NotInMemory => "not-in-memory: the board's memory has no such line",
            FileError::LineTwice => "line-twice: the line was laid before",
            FileError::NoLineOpen => {
                "no-line-open: no plain, code or data line stands before this"
            }
            FileError::LineFull => "line-full: the line has no room for another word",
            FileError::SaidTwice => "said-twice: this was said before",
            FileError::NoMemory => "no-memory: the file does not say the size of memory",
            FileError::NoSlots => "no-slots: the file does not say the number of slots",
            FileError::MemorySize => {
                "memory-size: memory is a multiple of 64 bytes, from 128 to 65536"
            }
            FileError::SlotCount => "slot-count: a cache has 1 to 64 slots",
            FileError::TooManySteps => "too-many-steps: a run has at most 10000 steps",
            FileError::RegisterZero => "register-zero: r0 is always zero",
        }
    }
}

impl fmt::Display for FileError {
    fn fmt<W: fmt::Write>(&self, f: &mut fmt::Formatter<W>) -> fmt::Result {
        write!(f, "{} {}", self.number(), self.sentence())
    }
}

impl Error for FileError {}

// An error of a board file, and the line where it was met: 1 for the first, 0 where the text has none.
#[derive(Clone, Copy, Debug, PartialEq, Eq)]
pub struct Misread {
    pub line: u64,
    pub error: FileError,
}

impl fmt::Display for Misread {
    fn fmt<W: fmt::Write>(&self, f: &mut fmt::Formatter<W>) -> fmt::Result {
        write!(f, "line {}: error {}", self.line, self.error)
    }
}

impl Error for Misread {}
