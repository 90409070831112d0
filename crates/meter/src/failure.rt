// Why there are no sheets, and how that is said on standard error.
use arrayvec::ArrayString;
use board_numbers::errors::Misread;
use std::fmt::Write;
use std::io;

// Why there are no sheets.
#[derive(Drop)]
pub(crate) enum Failure {
    // the system did not open the file
    Unopened(io::Error),
    TooLong,
    Misread(Misread),
    // a page could not be written
    Unwritten(io::Error),
}

impl From<Misread> for Failure {
    fn from(misread: Misread) -> Failure {
        Failure::Misread(misread)
    }
}

impl From<io::Error> for Failure {
    fn from(e: io::Error) -> Failure {
        Failure::Unwritten(e)
    }
}

// Writes an error in the system's own words, without the system's number behind them.
fn say_words(to: &impl Print, e: io::Error) -> io::Result<()> {
    // room for the 256 bytes that std takes of the system's words, and for the number
    let mut said = ArrayString::<512>::new();
    let _ = write!(said, "{e}");
    match said.as_str().split_once(" (os error ") {
        Some((words, _)) => println!(to; "{words}"),
        None => println!(to; "{said}"),
    }
}

impl Failure {
    // Says why there are no sheets of the file at a path, which may be no text.
    // Kept: in pieces and no Display, since a path of bytes is written as it is.
    pub(crate) fn say(self, to: &impl Print, path: &[u8]) -> io::Result<()> {
        match self {
            Failure::Unopened(e) => {
                to.write_all(path)?;
                print!(to; ": ")?;
                say_words(to, e)
            }
            Failure::TooLong => {
                println!(to; "meter: the file is too long: a board file has fewer than 65536 bytes")
            }
            Failure::Misread(misread) => {
                print!(to; "meter: ")?;
                to.write_all(path)?;
                println!(to; ", {misread}")
            }
            Failure::Unwritten(e) => Err(e),
        }
    }
}
