// The script of a board file: operations done in order on a board laid anew, with each answer and its counts.
ghost use Rattle.cache.specs.Held.{SameBuffers};

use board_text::lines;
use board_text::lines::Line;
use board_text::names::{Kind, Operation};
use board_text::statement::{Said, Statement};
use cache::buffers::Buffers;
use meter_pages::printing;
use meter_runs::BoardFile;
use meter_runs::room::Room;
use registers::record::Processor;
use std::io;

// Does an operation and writes what it answers, or the slots, and gives the record behind it.
fn behind(
    to: &impl Print,
    operation: Operation,
    s: &Statement,
    p: Processor,
    lent: &mut Buffers,
) -> io::Result<Processor>
    ensures { SameBuffers lent.old lent.new }
{
    if operation == Operation::List {
        printing::slots(to, lent.dir)?;
        return Ok(p);
    }
    let answer = script_operations::done(to, s, p, lent)?;
    print!(to; "    ")?;
    printing::report(to, answer.report)?;
    Ok(answer.processor)
}

// Writes which operation comes.
#[inline(never)]
fn announce(to: &impl Print, line: Line) -> io::Result<()> {
    print!(to; "line {}: ", line.number)?;
    to.write_all(line.text)?;
    println!(to)
}

// Lays a board into lent buffers, as far as its lines can be, and does the operations of its text in order.
fn session(to: &impl Print, file: &BoardFile, lent: &mut Buffers) -> io::Result<()>
    ensures { SameBuffers lent.old lent.new }
{
    let _ = laying::lines::load(file.text, file.board.drk, lent.mem, lent.macs);
    let mut p = meter_runs::start(file.board);
    for line in lines::of(file.text) {
        let Some(said) = Said::of(line.text) else {
            continue;
        };
        let Ok(s) = said.statement() else {
            continue;
        };
        if let Kind::Operation(operation) = s.kind {
            announce(to, line)?;
            p = behind(to, operation, &s, p, lent)?;
        }
    }
    Ok(())
}

// Writes what the script is done on.
#[inline(never)]
fn head(to: &impl Print) -> io::Result<()> {
    println!(to; "SCRIPT: from the file anew, with an empty cache")
}

// Does a board's script in a room of its own.
#[inline(never)]
fn in_a_room(to: &impl Print, file: &BoardFile) -> io::Result<()> {
    let mut room = Room::empty();
    let mut lent = room.lend(&file.board, file.board.slots);
    session(to, file, &mut lent)
}

// Does a board's script on memory laid anew, with an empty cache.
pub(crate) fn run(to: &impl Print, file: &BoardFile) -> io::Result<()> {
    head(to)?;
    in_a_room(to, file)
}
