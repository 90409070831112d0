// One line of a board file: what its first word says, and the numbers behind it.
ghost use Rattle.std.specs.Prelude.{◌≡◌, ◌≤◌, length, map, slice_index, IfOk, IfSome};
ghost use Rattle.board_numbers.specs.Numbers.{said_by};
ghost use Rattle.board_text.specs.Begins.{Begins};
ghost use Rattle.board_text.specs.Row.{row};

use crate::names::Kind;
use crate::numbers::Numbers;
use crate::shape;
use crate::words::Words;
use board_numbers::errors::FileError;
use board_numbers::number;

// A statement: its kind, and the numbers behind its word.
#[derive(Clone, Copy, Debug, PartialEq, Eq)]
pub struct Statement {
    pub kind: Kind,
    pub numbers: Numbers,
}

impl Statement {
    // What number i says, 0 where the line does not have it.
    pub fn value(&self, i: usize) -> u64
        ensures { result ≡ slice_index (map said_by (row self.now.numbers)) i }
    {
        self.numbers.get(i).map_or(0, |n| n.value())
    }
}

// The words of a line that has any: the first, and those behind it.
#[derive(Clone, Copy, Debug, PartialEq, Eq)]
pub struct Said<'a> {
    first: &'a [u8],
    behind: Words<'a>,
}

impl<'a> Said<'a> {
    // What a line says, none where it is empty or only a comment.
    pub fn of(line: &'a [u8]) -> Option<Said<'a>>
        ensures { IfSome result (Begins line.now) }
    {
        let end = line.iter().position(|c| *c == b'#').unwrap_or(line.len());
        let mut behind = Words { rest: &line[..end] };
        let first = behind.next()?;
        Some(Said { first, behind })
    }

    // The statement that the words make.
    pub fn statement(self) -> Result<Statement, FileError>
        ensures { IfOk result (λ s. s.numbers.count ≤ length self.entry.behind.rest.now) }
    {
        let Said { first, behind } = self;
        let kind = Kind::named(first)?;
        let mut numbers = Numbers::new();
        for word in behind {
            numbers.push(number::read(word)?)?;
        }
        shape::of(kind).check(&numbers)?;
        Ok(Statement { kind, numbers })
    }
}

// The statement that a line makes, none where it is empty or only a comment.
// Whoever goes over many lines takes `Said::of` first: an empty one then makes no room for a statement.
pub fn read(line: &[u8]) -> Result<Option<Statement>, FileError> {
    match Said::of(line) {
        Some(said) => Ok(Some(said.statement()?)),
        None => Ok(None),
    }
}
