// What the program is asked for on its command line.
#![tactic(auto)]

ghost use Rattle.std.specs.Prelude.{◌≤◌, IfSome};

use board_numbers::number;
use board_numbers::number::Number;
use std::env::FillError;
use std::error::Error;
use std::fmt;
use std::rt::Env;

// How sheets are printed: as text for people, or as rows for programs.
#[derive(Clone, Copy, Debug, Default, PartialEq, Eq)]
pub enum Format {
    #[default]
    Text,
    Csv,
}

// What is asked for of a board's file, and the line to drop before a third run, where one is.
#[derive(Clone, Copy, Debug, Default, PartialEq, Eq)]
pub struct Options {
    pub format: Format,
    pub sizes: bool,
    pub script: bool,
    pub keep: bool,
    pub drop: Option<u64>,
}

// The file's place among the arguments, and what is asked for of it.
#[derive(Clone, Copy, Debug, PartialEq, Eq)]
pub struct Command {
    pub path: usize,
    pub options: Options,
}

// The arguments are not understood.
#[derive(Clone, Copy, Debug, PartialEq, Eq)]
pub struct Misused;

impl fmt::Display for Misused {
    fn fmt<W: fmt::Write>(&self, f: &mut fmt::Formatter<W>) -> fmt::Result {
        f.write_str("the arguments are not understood")
    }
}

impl Error for Misused {}

// What the arguments read so far ask for, and whether the next one is the line to drop.
#[derive(Clone, Copy, Debug, Default, PartialEq, Eq)]
struct Asked {
    path: Option<usize>,
    options: Options,
    expects_line: bool,
}

impl Asked {
    // Takes the argument at a place.
    fn take(&mut self, word: &[u8], place: usize) -> Result<(), Misused> {
        if self.expects_line {
            return self.take_line(word);
        }
        match word.first() {
            None => Err(Misused),
            Some(b'-') => self.take_switch(word),
            Some(_) => self.take_path(place),
        }
    }

    // Takes the line to drop.
    fn take_line(&mut self, word: &[u8]) -> Result<(), Misused> {
        let Ok(Number::Plain(line)) = number::read(word) else {
            return Err(Misused);
        };
        self.options.drop = Some(line);
        self.expects_line = false;
        Ok(())
    }

    // Takes an argument that begins with a minus sign.
    fn take_switch(&mut self, word: &[u8]) -> Result<(), Misused> {
        match word {
            b"--csv" => self.options.format = Format::Csv,
            b"--sizes" => self.options.sizes = true,
            b"--script" => self.options.script = true,
            b"--keep" => self.options.keep = true,
            b"--drop" => self.expects_line = true,
            _ => return Err(Misused),
        }
        Ok(())
    }

    // Takes the place of the file's name, of which there is one.
    fn take_path(&mut self, place: usize) -> Result<(), Misused> {
        if self.path.is_some() {
            return Err(Misused);
        }
        self.path = Some(place);
        Ok(())
    }

    // What all arguments ask for; a file is needed, and a line behind --drop.
    fn ended(self) -> Result<Command, Misused> {
        match self.path {
            Some(path) if !self.expects_line => Ok(Command {
                path,
                options: self.options,
            }),
            _ => Err(Misused),
        }
    }
}

// The length of the argument at a place, which the system puts at the start of a buffer: 0 where it is longer than
// that, and none where there is no such argument.
fn argument(env: &impl Env, place: usize, word: &mut [u8; 4096]) -> Option<usize>
    ensures { IfSome result (λ n. n ≤ 4096) }
{
    match env.arg(place, word) {
        Ok(n) => Some(n),
        Err(FillError::TooLong) => Some(0),
        Err(FillError::NotPresent) => None,
    }
}

// What all arguments ask for, the program's name aside.
// Not inlined, so that the program's stack is free of a word's buffer afterwards.
#[inline(never)]
pub fn read(env: &impl Env) -> Result<Command, Misused> {
    let mut asked = Asked::default();
    // Kept: a buffer and a count; std's env::args allocates, and the meter has fixed memory.
    let mut word = [0u8; 4096];
    for place in 1..usize::MAX {
        let Some(n) = argument(env, place, &mut word) else {
            break;
        };
        asked.take(&word[..n], place)?;
    }
    asked.ended()
}
