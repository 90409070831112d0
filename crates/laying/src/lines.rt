// The lines of a board file laid into memory, and those for protected use signed or sealed at the depot.
ghost use Rattle.std.specs.Prelude.{◌≡◌, ◌≤◌, length, IfErr};

use board_numbers::errors::{FileError, Misread};
use board_numbers::number::Number;
use board_text::lines;
use board_text::names::{Kind, Use};
use board_text::statement::{Said, Statement};
use opcodes::opcode::Opcode;
use sealing::Drk;

// The room that is left of the line opened last: where the next word goes, up to `end`, so many bytes at a time.
#[derive(Clone, Copy, Debug, PartialEq, Eq)]
struct Room {
    at: usize,
    end: usize,
    size: usize,
    ghost near: { end ≤ 65536 },
    ghost small: { size ≤ 8 },
}

impl Room {
    // The room of a line from its first byte on, by its use.
    fn new(used: Use, at: usize) -> Room
        requires { at ≤ 65472 }
    {
        let size = if used == Use::Data { 8 } else { 4 };
        let bytes = if used == Use::Code { 48 } else { 64 };
        Room {
            at,
            end: at + bytes,
            size,
        }
    }

    // Puts a word's low bytes into memory, the lowest first.
    fn put(&mut self, value: u64, mem: &mut [u8]) -> Result<(), FileError>
        ensures { length mem.new ≡ length mem.old }
    {
        if self.end <= self.at {
            return Err(FileError::LineFull);
        }
        let bytes = value.to_le_bytes();
        for (place, byte) in mem.iter_mut().skip(self.at).zip(&bytes).take(self.size) {
            *place = *byte;
        }
        self.at += self.size;
        Ok(())
    }

    // Puts words into memory, one behind the other.
    fn put_all(&mut self, numbers: &[Number], mem: &mut [u8]) -> Result<(), FileError>
        ensures { length mem.new ≡ length mem.old }
    {
        for n in numbers {
            self.put(n.value(), mem)?;
        }
        Ok(())
    }
}

// The word of an instruction.
fn instruction(opcode: Opcode, s: &Statement) -> Result<u64, FileError> {
    coding::encode(opcode as usize, s.value(0), s.value(1), s.value(2))
}

// Opens a line: notes its use, and answers its room.
fn opened(
    used: Use,
    line: u64,
    memory: usize,
    uses: &mut [Option<Use>; 1024],
) -> Result<Room, FileError> {
    if uses.len().min(memory / 64) as u64 <= line {
        return Err(FileError::NotInMemory);
    }
    let i = line as usize;
    if uses[i].is_some() {
        return Err(FileError::LineTwice);
    }
    uses[i] = Some(used);
    Ok(Room::new(used, i * 64))
}

// Lays what a statement says; the room is that of the line opened last.
fn lay_statement(
    s: &Statement,
    room: &mut Option<Room>,
    mem: &mut [u8],
    uses: &mut [Option<Use>; 1024],
) -> Result<(), FileError>
    ensures { length mem.new ≡ length mem.old }
{
    match s.kind {
        Kind::Line(used) => {
            let mut opened = opened(used, s.value(0), mem.len(), uses)?;
            opened.put_all(s.numbers.get(1..).unwrap_or_default(), mem)?;
            *room = Some(opened);
        }
        Kind::Word => room
            .as_mut()
            .ok_or(FileError::NoLineOpen)?
            .put_all(&s.numbers, mem)?,
        Kind::Instruction(opcode) => {
            let word = instruction(opcode, s)?;
            room.as_mut().ok_or(FileError::NoLineOpen)?.put(word, mem)?;
        }
        Kind::Setting(_) | Kind::Operation(_) => {}
    }
    Ok(())
}

// Lays every line of a text into memory, and notes each line's use.
// Not inlined, so that the statements give their room back before a line is sealed.
#[inline(never)]
fn lay(text: &[u8], mem: &mut [u8], uses: &mut [Option<Use>; 1024]) -> Result<(), Misread>
    ensures line { IfErr result (λ m. m.line ≤ length text.now) }
    ensures length { length mem.new ≡ length mem.old }
{
    let mut room = None;
    for line in lines::of(text) {
        let misread = |error| Misread {
            line: line.number,
            error,
        };
        let Some(said) = Said::of(line.text) else {
            continue;
        };
        let s = said.statement().map_err(misread)?;
        lay_statement(&s, &mut room, mem, uses).map_err(misread)?;
    }
    Ok(())
}

// Signs the code line i of memory.
fn sign(drk: Drk, mem: &mut [u8], i: usize)
    ensures { length mem.new ≡ length mem.old }
{
    if i < mem.len() / 64 {
        let at = i * 64;
        let _ = depot::sign(drk, at as u64, &mut mem[at..at + 64]);
    }
}

// Seals the data line i of memory, and lays its MAC into the MAC area.
fn seal(drk: Drk, mem: &mut [u8], macs: &mut [u8], i: usize)
    ensures { (length mem.new ≡ length mem.old)
        × (length macs.new ≡ length macs.old) }
{
    if i < mem.len() / 64 && i < macs.len() / 16 {
        let at = i * 64;
        let _ = depot::seal(
            drk,
            at as u64,
            &mut mem[at..at + 64],
            &mut macs[i * 16..i * 16 + 16],
        );
    }
}

// Signs and seals the lines that are noted so.
fn protect(drk: Drk, mem: &mut [u8], macs: &mut [u8], uses: &[Option<Use>; 1024])
    ensures { (length mem.new ≡ length mem.old)
        × (length macs.new ≡ length macs.old) }
{
    for (i, used) in uses.iter().enumerate() {
        match used {
            Some(Use::Code) => sign(drk, mem, i),
            Some(Use::Data) => seal(drk, mem, macs, i),
            Some(Use::Plain) | None => {}
        }
    }
}

// Lays the lines of a board's text into memory, signs the code lines, seals the data lines and lays their MACs into the
// MAC area, under the DRK.
pub fn load(text: &[u8], drk: Drk, mem: &mut [u8], macs: &mut [u8]) -> Result<(), Misread>
    ensures line { IfErr result (λ m. m.line ≤ length text.now) }
    ensures memory { length mem.new ≡ length mem.old }
    ensures area { length macs.new ≡ length macs.old }
{
    let mut uses = [None; 1024];
    lay(text, mem, &mut uses)?;
    protect(drk, mem, macs, &uses);
    Ok(())
}
