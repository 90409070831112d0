// The meter: reads a board file and prints a cold and a warm sheet of its run, as text or CSV, for one cache or for
// several sizes, or the answers of its script.
#![tactic(auto)]

mod failure;
mod script;
mod sizes;

ghost use Rattle.std.specs.Prelude.{◌≤◌, length};

use board_file::board;
use board_file::board::Board;
use board_numbers::errors::Misread;
use failure::Failure;
use meter_options::{Command, Format, Misused, Options};
use meter_pages::book::Run;
use meter_pages::{book, printing, rows};
use meter_runs::{BoardFile, Later};
use sheets::running::Sheets;
use std::io::Read;
use std::rt::{Env, Files};
use std::{fs, io};

// Functions that are not inlined give their buffers back before a run, so that the sheets take the stack of one room.

// Prints both sheets of a board.
#[inline(never)]
fn print_both(to: &impl Print, b: &Board, s: &Sheets, format: Format) -> io::Result<()> {
    let sheets = [&s.cold, &s.warm];
    if format == Format::Text {
        for sheet in sheets {
            printing::sheet(to, b, sheet)?;
        }
        return Ok(());
    }
    rows::header(to)?;
    for sheet in sheets {
        rows::row(to, Run::of(sheet).number(), b.slots, sheet)?;
    }
    rows::slot_header(to)?;
    for sheet in sheets {
        rows::slots(to, Run::of(sheet).number(), b.slots, sheet)?;
    }
    Ok(())
}

// Runs a board twice, and prints both sheets.
#[inline(never)]
fn both(to: &impl Print, file: &BoardFile, format: Format) -> io::Result<()> {
    let sheets = file.both(file.board.slots);
    print_both(to, &file.board, &sheets, format)
}

// Prints the sheet of a third run, with the cache kept but for a line that is dropped where that is asked for.
#[inline(never)]
fn third(to: &impl Print, file: &BoardFile, o: Options) -> io::Result<()> {
    let Later { dropped, sheet } = file.third(o.drop);
    if o.format == Format::Csv {
        println!(to)?;
        rows::header(to)?;
        return rows::row(to, Run::Kept.number(), file.board.slots, &sheet);
    }
    book::heading(to, Run::Kept)?;
    if let (Some(line), Some(report)) = (o.drop, dropped) {
        print!(to; " but for line {line}, dropped before it\ndrop: ")?;
        printing::report(to, report)?;
    } else {
        println!(to)?;
    }
    printing::body(to, &file.board, &sheet)
}

// Prints what is asked for of a board.
// Kept: a branch for each switch of the command line; more than one may be given, and the first here counts.
fn show(to: &impl Print, file: &BoardFile, o: Options) -> io::Result<()> {
    if o.sizes {
        return sizes::all(to, file, o.format);
    }
    if o.script {
        return script::run(to, file);
    }
    both(to, file, o.format)?;
    if o.keep || o.drop.is_some() {
        third(to, file, o)?;
    }
    Ok(())
}

// The system's number for bytes that are no text, EILSEQ.
const NO_TEXT: i32 = 84;

// The file at a path, opened to be read; a path that is not UTF-8 is refused.
#[inline(never)]
fn opened<R: Files>(rt: &R, path: &[u8]) -> io::Result<R::File> {
    let path = str::from_utf8(path).map_err(|_| io::Error::from_raw_os_error(NO_TEXT))?;
    fs::open(rt, path)
}

// Reads until a buffer is full, the file ends or a read fails, and answers how many bytes lie at the buffer's start.
fn read_full(file: &mut impl Read, text: &mut [u8]) -> usize
    ensures { result ≤ length text.new }
{
    // Kept: std's read_exact does not say how many bytes came, and read_to_end allocates.
    let mut done = 0;
    while let Ok(n) = file.read(&mut text[done..]) {
        if n == 0 {
            break;
        }
        done += n;
    }
    done
}

// The board file of a text whose lines can be laid, or the text's first error.
#[inline(never)]
fn understood(text: &[u8]) -> Result<BoardFile<'_>, Misread> {
    let file = BoardFile {
        text,
        board: board::read(text)?,
    };
    file.laid()?;
    Ok(file)
}

// Reads the board file at a path and prints what is asked for, or finds the text's first error.
#[inline(never)]
fn measure<R: Files>(rt: &R, to: &impl Print, path: &[u8], o: Options) -> Result<(), Failure> {
    let mut file = opened(rt, path).map_err(|e| Failure::Unopened(e))?;
    // Kept: a buffer and a count; std's read_to_end allocates, and the meter has fixed memory.
    let mut text = [0u8; 65536];
    let n = read_full(&mut file, &mut text);
    drop(file);
    if n == text.len() {
        return Err(Failure::TooLong);
    }
    show(to, &understood(&text[..n])?, o)?;
    Ok(())
}

// Says how the program is called.
#[inline(never)]
fn usage(to: &impl Print, misused: Misused) -> io::Result<()> {
    println!(to;
        "meter: {misused}\n\
        usage: meter FILE [--csv] [--sizes] [--script] [--keep] [--drop LINE]"
    )
}

// Prints what a command asks for, or says why there are no sheets.
#[inline(never)]
fn answer<R: Env + Files + Print>(rt: &R, err: &impl Print, command: Command) -> io::Result<()> {
    // Kept: a buffer and a count; std's env::args allocates, and the meter has fixed memory.
    let mut path = [0u8; 4096];
    let n = rt.arg(command.path, &mut path).unwrap_or(0);
    let path = &path[..n];
    match measure(rt, rt, path, command.options) {
        Ok(()) => Ok(()),
        Err(failure) => failure.say(err, path),
    }
}

fn main(rt: HostRuntime) -> io::Result<()> {
    let err = rt.stderr();
    match meter_options::read(&rt) {
        Ok(command) => answer(&rt, &err, command),
        Err(misused) => usage(&err, misused),
    }
}
