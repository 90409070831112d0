// The board that a file says: its sizes, keys, registers at the start, and how many instructions its sheets run.
ghost use Rattle.std.specs.Prelude.{◌≡◌, ◌%◌, ◌<◌, ◌≤◌, length, IfOk, OnOk, OnErr};
ghost use Rattle.std.specs.Option.{ForSome};
ghost use Rattle.std.specs.Result.{result_ok};
ghost use Rattle.board_file.specs.Boards.{Whole, Read};

use board_numbers::errors::{FileError, Misread};
use board_text::lines;
use board_text::names::{Kind, Setting};
use board_text::statement::{Said, Statement};
use sealing::Drk;

// A board.
// Kept: `Within` is a clause and no invariant, since meter_runs::start and the pages take any board.
#[derive(Clone, Copy, Debug, PartialEq, Eq)]
pub struct Board {
    pub memory: usize,
    pub slots: usize,
    pub drk: Drk,
    pub srh: [u64; 4],
    pub pc: u64,
    pub steps: u64,
    pub registers: [u64; 32],
}

// A size of memory.
fn memory_of(size: u64) -> Result<usize, FileError>
    ensures { IfOk result (λ n. (0 < n) × (n ≤ 65536) × (n % 64 ≡ 0)) }
{
    if size < 128 || 65536 < size || size % 64 != 0 {
        return Err(FileError::MemorySize);
    }
    Ok(size as usize)
}

// A number of slots.
fn slots_of(count: u64) -> Result<usize, FileError>
    ensures { IfOk result (λ n. (0 < n) × (n ≤ 64)) }
{
    if count < 1 || 64 < count {
        return Err(FileError::SlotCount);
    }
    Ok(count as usize)
}

// A number of instructions to run.
fn steps_of(count: u64) -> Result<u64, FileError>
    ensures { IfOk result (λ n. n ≤ 10000) }
{
    if 10000 < count {
        return Err(FileError::TooManySteps);
    }
    Ok(count)
}

// Notes what may be said once, and was not said before.
fn say<T: Copy>(place: &mut Option<T>, value: Result<T, FileError>) -> Result<(), FileError>
    ensures said { OnOk result (place.new ≡ result_ok value) }
    ensures refused { OnErr result (place.new ≡ place.old) }
{
    if place.is_some() {
        return Err(FileError::SaidTwice);
    }
    *place = Some(value?);
    Ok(())
}

// What a text has said of its board so far.
#[derive(Clone, Copy, Debug, PartialEq, Eq)]
struct Draft {
    memory: Option<usize>,
    slots: Option<usize>,
    drk: Option<Drk>,
    srh: Option<[u64; 4]>,
    pc: Option<u64>,
    steps: Option<u64>,
    registers: [Option<u64>; 32],
    ghost memory_fits: { ForSome memory (λ n. (0 < n) × (n ≤ 65536) × (n % 64 ≡ 0)) },
    ghost slots_fit: { ForSome slots (λ n. (0 < n) × (n ≤ 64)) },
    ghost steps_fit: { ForSome steps (λ n. n ≤ 10000) },
}

impl Draft {
    // Nothing said.
    fn new() -> Draft {
        Draft {
            memory: None,
            slots: None,
            drk: None,
            srh: None,
            pc: None,
            steps: None,
            registers: [None; 32],
        }
    }

    // A register at the start.
    fn set_register(&mut self, number: u64, value: u64) -> Result<(), FileError> {
        if number == 0 {
            return Err(FileError::RegisterZero);
        }
        say(&mut self.registers[(number % 32) as usize], Ok(value))
    }

    // What a statement says of the board.
    fn set(&mut self, setting: Setting, s: &Statement) -> Result<(), FileError> {
        let first = s.value(0);
        match setting {
            Setting::Memory => say(&mut self.memory, memory_of(first)),
            Setting::Slots => say(&mut self.slots, slots_of(first)),
            Setting::Drk => say(
                &mut self.drk,
                Ok(Drk {
                    high: first,
                    low: s.value(1),
                }),
            ),
            Setting::Srh => say(
                &mut self.srh,
                Ok([first, s.value(1), s.value(2), s.value(3)]),
            ),
            Setting::Pc => say(&mut self.pc, Ok(first)),
            Setting::Steps => say(&mut self.steps, steps_of(first)),
            Setting::Register => self.set_register(first, s.value(1)),
        }
    }

    // What a line says of the board.
    fn take(&mut self, line: &[u8]) -> Result<(), FileError> {
        let Some(said) = Said::of(line) else {
            return Ok(());
        };
        let statement = said.statement()?;
        match statement.kind {
            Kind::Setting(setting) => self.set(setting, &statement),
            _ => Ok(()),
        }
    }

    // The board at the end of its text: its memory and its slots have to be said.
    fn finished(self) -> Result<Board, FileError>
        ensures { IfOk result Whole }
    {
        let memory = self.memory.ok_or(FileError::NoMemory)?;
        let slots = self.slots.ok_or(FileError::NoSlots)?;
        Ok(Board {
            memory,
            slots,
            drk: self.drk.unwrap_or(Drk { high: 0, low: 0 }),
            srh: self.srh.unwrap_or([0; 4]),
            pc: self.pc.unwrap_or(0),
            steps: self.steps.unwrap_or(0),
            registers: self.registers.map(|said| said.unwrap_or(0)),
        })
    }
}

// The board that a text says, or its first error and the error's line.
pub fn read(text: &[u8]) -> Result<Board, Misread>
    ensures { Read (length text.now) result }
{
    let mut draft = Draft::new();
    let mut last = 0;
    for line in lines::of(text) {
        last = line.number;
        draft
            .take(line.text)
            .map_err(|error| Misread { line: last, error })?;
    }
    draft
        .finished()
        .map_err(|error| Misread { line: last, error })
}
