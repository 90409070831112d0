// What each statement asks: how many numbers, which of them are registers, and which are words of 32 bits.
use crate::names::{Kind, Operation, Setting, Use};
use board_numbers::errors::FileError;
use board_numbers::number::Number;
use opcodes::opcode::Opcode;

// At least and at most so many numbers, of which so many first ones are registers and the others are not; the numbers
// from `words` on, where that is said, have 32 bits.
#[derive(Clone, Copy, Debug, PartialEq, Eq)]
pub(crate) struct Shape {
    least: usize,
    most: usize,
    registers: usize,
    words: Option<usize>,
}

// So many numbers, of which the first ones are registers, and no words of 32 bits.
fn exactly(count: usize, registers: usize) -> Shape {
    Shape {
        least: count,
        most: count,
        registers,
        words: None,
    }
}

// One number at least and no register; the numbers from a place on, where that is said, are words of 32 bits.
fn up_to(most: usize, words: Option<usize>) -> Shape {
    Shape {
        least: 1,
        most,
        registers: 0,
        words,
    }
}

// What a statement of the board's own asks.
fn of_setting(setting: Setting) -> Shape {
    match setting {
        Setting::Memory | Setting::Slots | Setting::Pc | Setting::Steps => exactly(1, 0),
        Setting::Drk => exactly(2, 0),
        Setting::Srh => exactly(4, 0),
        Setting::Register => exactly(2, 1),
    }
}

// What a statement that opens a line asks: the line's number, and the words behind it.
fn of_use(used: Use) -> Shape {
    match used {
        Use::Plain => up_to(17, Some(1)),
        Use::Code => up_to(13, Some(1)),
        Use::Data => up_to(9, None),
    }
}

// What an operation asks.
fn of_operation(operation: Operation) -> Shape {
    match operation {
        Operation::Run | Operation::BusRead | Operation::Drop => exactly(1, 0),
        Operation::BusWrite => up_to(17, Some(1)),
        Operation::BusMac => up_to(5, Some(1)),
        Operation::Interrupt
        | Operation::WriteBack
        | Operation::Reboot
        | Operation::PowerCut
        | Operation::List => exactly(0, 0),
    }
}

// What an instruction asks.
fn of_opcode(opcode: Opcode) -> Shape {
    match opcode {
        Opcode::Add | Opcode::Sub | Opcode::And | Opcode::Or | Opcode::Xor => exactly(3, 3),
        Opcode::Addi
        | Opcode::Beq
        | Opcode::Load
        | Opcode::Store
        | Opcode::GrGet
        | Opcode::SecureLoad
        | Opcode::SecureStore => exactly(3, 2),
        Opcode::Clz | Opcode::CtxSet | Opcode::DrkSet | Opcode::DrkDerive => exactly(2, 2),
        Opcode::Jr | Opcode::EpcGet | Opcode::EpcSet | Opcode::CauseGet => exactly(1, 1),
        Opcode::GrSet => exactly(2, 1),
        Opcode::Rfi
        | Opcode::DrkLock
        | Opcode::SrhGet
        | Opcode::SrhSet
        | Opcode::BeginCemA
        | Opcode::EndCem
        | Opcode::BeginCemU => exactly(0, 0),
    }
}

// What a statement asks.
pub(crate) fn of(kind: Kind) -> Shape {
    match kind {
        Kind::Setting(setting) => of_setting(setting),
        Kind::Line(used) => of_use(used),
        Kind::Word => up_to(16, Some(0)),
        Kind::Operation(operation) => of_operation(operation),
        Kind::Instruction(opcode) => of_opcode(opcode),
    }
}

impl Shape {
    // Whether numbers are as they are asked, or the first thing that is wrong with them.
    pub(crate) fn check(self, numbers: &[Number]) -> Result<(), FileError> {
        if numbers.len() < self.least {
            return Err(FileError::TooFew);
        }
        if self.most < numbers.len() {
            return Err(FileError::LeftOver);
        }
        let registers = self.registers;
        if !numbers.iter().enumerate().all(|(i, n)| matches!(n, Number::Register(_))
            == (i < registers))
        {
            return Err(FileError::Registers);
        }
        let words = self.words.unwrap_or(numbers.len());
        if numbers.iter().skip(words).any(|n| 0xffff_ffff < n.value()) {
            return Err(FileError::TooLarge);
        }
        Ok(())
    }
}
