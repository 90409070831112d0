// The refusals of a call, by document 01's numbers and names.
ghost use Rattle.std.specs.Prelude.{◌≡◌, Some};
ghost use Rattle.answers.specs.Numbers.{refusal_number, refusal_in, refusal_name, refusal_text, IsRefusal};

use std::fmt;

// A refusal.
#[derive(Clone, Copy, Debug, PartialEq, Eq)]
pub enum Refusal {
    MemorySize,
    MacAreaSize,
    CacheSize,
    DirectoryNumber,
    Record,
    NoSuchLine,
    BufferSize,
    TooManySteps,
    MacWrong,
    RowSize,
}

impl Refusal {
    // Document 01's number.
    pub fn number(self) -> u32
        ensures { result ≡ refusal_number self }
    {
        match self {
            Refusal::MemorySize => 101,
            Refusal::MacAreaSize => 102,
            Refusal::CacheSize => 103,
            Refusal::DirectoryNumber => 104,
            Refusal::Record => 105,
            Refusal::NoSuchLine => 106,
            Refusal::BufferSize => 107,
            Refusal::TooManySteps => 108,
            Refusal::MacWrong => 109,
            Refusal::RowSize => 110,
        }
    }

    // Document 01's name.
    pub fn name(self) -> &'static str
        ensures { result.now ≡ refusal_name self }
    {
        match self {
            Refusal::MemorySize => "memory size",
            Refusal::MacAreaSize => "MAC area size",
            Refusal::CacheSize => "cache size",
            Refusal::DirectoryNumber => "directory number",
            Refusal::Record => "record",
            Refusal::NoSuchLine => "no such line",
            Refusal::BufferSize => "transfer buffer size",
            Refusal::TooManySteps => "more than 10000 steps",
            Refusal::MacWrong => "MAC wrong",
            Refusal::RowSize => "listing row size",
        }
    }
}

// A number that is no refusal's.
#[derive(Clone, Copy, Debug, PartialEq, Eq)]
pub struct NoRefusal(pub u32);

impl TryFrom<u32> for Refusal {
    type Error = NoRefusal;

    ghost try_from_gives = { IsRefusal };

    fn try_from(number: u32) -> Result<Refusal, NoRefusal> {
        match number {
            101 => Ok(Refusal::MemorySize),
            102 => Ok(Refusal::MacAreaSize),
            103 => Ok(Refusal::CacheSize),
            104 => Ok(Refusal::DirectoryNumber),
            105 => Ok(Refusal::Record),
            106 => Ok(Refusal::NoSuchLine),
            107 => Ok(Refusal::BufferSize),
            108 => Ok(Refusal::TooManySteps),
            109 => Ok(Refusal::MacWrong),
            110 => Ok(Refusal::RowSize),
            _ => Err(NoRefusal(number)),
        }
    }
}

// The number and the name, as in `101 (memory size)`.
impl fmt::Display for Refusal {
    ghost output = { λ refusal. Some (refusal_text refusal) };

    fn fmt<W: fmt::Write>(&self, f: &mut fmt::Formatter<W>) -> fmt::Result {
        write!(f, "{} ({})", self.number(), self.name())
    }
}

// The number of a refusal, and 0 where there is none.
// Kept: 0 for none, as C's calls of the depot answer it.
pub fn number_of(answer: Result<(), Refusal>) -> u32
    ensures { result ≡ refusal_in answer }
{
    match answer {
        Ok(()) => 0,
        Err(refusal) => refusal.number(),
    }
}
