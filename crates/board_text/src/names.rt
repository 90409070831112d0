// The words of a board file: the first word of a statement, or an instruction's name.
use board_numbers::errors::FileError;
use opcodes::opcode::Opcode;

// What a statement says of the board, but for its lines.
#[derive(Clone, Copy, Debug, PartialEq, Eq)]
pub enum Setting {
    Memory,
    Slots,
    Drk,
    Srh,
    Pc,
    Steps,
    Register,
}

// How the line that a statement opens is laid: as it stands, signed, or sealed.
#[derive(Clone, Copy, Debug, PartialEq, Eq)]
pub enum Use {
    Plain,
    Code,
    Data,
}

// An operation of a script.
#[derive(Clone, Copy, Debug, PartialEq, Eq)]
pub enum Operation {
    Run,
    Interrupt,
    BusRead,
    BusWrite,
    BusMac,
    Drop,
    WriteBack,
    Reboot,
    PowerCut,
    List,
}

// What a statement is, by its first word.
#[derive(Clone, Copy, Debug, PartialEq, Eq)]
pub enum Kind {
    Setting(Setting),
    Line(Use),
    Word,
    Operation(Operation),
    Instruction(Opcode),
}

impl Setting {
    // The setting of a name.
    fn named(word: &[u8]) -> Option<Setting> {
        match word {
            b"memory" => Some(Setting::Memory),
            b"slots" => Some(Setting::Slots),
            b"drk" => Some(Setting::Drk),
            b"srh" => Some(Setting::Srh),
            b"pc" => Some(Setting::Pc),
            b"steps" => Some(Setting::Steps),
            b"reg" => Some(Setting::Register),
            _ => None,
        }
    }
}

impl Use {
    // The use of a name.
    fn named(word: &[u8]) -> Option<Use> {
        match word {
            b"plain" => Some(Use::Plain),
            b"code" => Some(Use::Code),
            b"data" => Some(Use::Data),
            _ => None,
        }
    }
}

impl Operation {
    // The operation of a name.
    fn named(word: &[u8]) -> Option<Operation> {
        match word {
            b"run" => Some(Operation::Run),
            b"interrupt" => Some(Operation::Interrupt),
            b"busread" => Some(Operation::BusRead),
            b"buswrite" => Some(Operation::BusWrite),
            b"busmac" => Some(Operation::BusMac),
            b"drop" => Some(Operation::Drop),
            b"writeback" => Some(Operation::WriteBack),
            b"reboot" => Some(Operation::Reboot),
            b"powercut" => Some(Operation::PowerCut),
            b"list" => Some(Operation::List),
            _ => None,
        }
    }
}

// The instruction of a name.
fn opcode_named(word: &[u8]) -> Option<Opcode> {
    match word {
        b"add" => Some(Opcode::Add),
        b"sub" => Some(Opcode::Sub),
        b"and" => Some(Opcode::And),
        b"or" => Some(Opcode::Or),
        b"xor" => Some(Opcode::Xor),
        b"addi" => Some(Opcode::Addi),
        b"clz" => Some(Opcode::Clz),
        b"beq" => Some(Opcode::Beq),
        b"jr" => Some(Opcode::Jr),
        b"load" => Some(Opcode::Load),
        b"store" => Some(Opcode::Store),
        b"epc.get" => Some(Opcode::EpcGet),
        b"epc.set" => Some(Opcode::EpcSet),
        b"cause.get" => Some(Opcode::CauseGet),
        b"ctx.set" => Some(Opcode::CtxSet),
        b"rfi" => Some(Opcode::Rfi),
        b"drk.set" => Some(Opcode::DrkSet),
        b"drk.lock" => Some(Opcode::DrkLock),
        b"drk.derive" => Some(Opcode::DrkDerive),
        b"srh.get" => Some(Opcode::SrhGet),
        b"srh.set" => Some(Opcode::SrhSet),
        b"gr.get" => Some(Opcode::GrGet),
        b"gr.set" => Some(Opcode::GrSet),
        b"begin_cem.a" => Some(Opcode::BeginCemA),
        b"end_cem" => Some(Opcode::EndCem),
        b"secure_load" => Some(Opcode::SecureLoad),
        b"secure_store" => Some(Opcode::SecureStore),
        b"begin_cem.u" => Some(Opcode::BeginCemU),
        _ => None,
    }
}

impl Kind {
    // The kind of statement that a first word begins.
    pub(crate) fn named(word: &[u8]) -> Result<Kind, FileError> {
        if word == b"word".as_slice() {
            return Ok(Kind::Word);
        }
        Setting::named(word)
            .map(Kind::Setting)
            .or_else(|| Use::named(word).map(Kind::Line))
            .or_else(|| Operation::named(word).map(Kind::Operation))
            .or_else(|| opcode_named(word).map(Kind::Instruction))
            .ok_or(FileError::UnknownWord)
    }
}
