// An instruction by its opcode.
ghost use Rattle.std.specs.Prelude.{◌≡◌, get_or, eqb};
ghost use Rattle.instructions.specs.Board.{opcode_table};
ghost use Rattle.opcodes.specs.Numbers.{opcode_number, opcode_named};

// The instructions, by document 01's opcodes.
#[derive(Clone, Copy, Debug, PartialEq, Eq)]
pub enum Opcode {
    Add = 1,
    Sub = 2,
    And = 3,
    Or = 4,
    Xor = 5,
    Addi = 6,
    Clz = 7,
    Beq = 8,
    Jr = 9,
    Load = 10,
    Store = 11,
    EpcGet = 12,
    EpcSet = 13,
    CauseGet = 14,
    CtxSet = 15,
    Rfi = 16,
    DrkSet = 32,
    DrkLock = 33,
    DrkDerive = 34,
    SrhGet = 35,
    SrhSet = 36,
    GrGet = 37,
    GrSet = 38,
    BeginCemA = 39,
    EndCem = 40,
    SecureLoad = 41,
    SecureStore = 42,
    BeginCemU = 43,
}

impl Opcode {
    // The instruction of an opcode, where document 01 has one.
    pub fn named(number: u64) -> Option<Opcode>
        ensures { result ≡ opcode_named number }
    {
        match number {
            1 => Some(Opcode::Add),
            2 => Some(Opcode::Sub),
            3 => Some(Opcode::And),
            4 => Some(Opcode::Or),
            5 => Some(Opcode::Xor),
            6 => Some(Opcode::Addi),
            7 => Some(Opcode::Clz),
            8 => Some(Opcode::Beq),
            9 => Some(Opcode::Jr),
            10 => Some(Opcode::Load),
            11 => Some(Opcode::Store),
            12 => Some(Opcode::EpcGet),
            13 => Some(Opcode::EpcSet),
            14 => Some(Opcode::CauseGet),
            15 => Some(Opcode::CtxSet),
            16 => Some(Opcode::Rfi),
            32 => Some(Opcode::DrkSet),
            33 => Some(Opcode::DrkLock),
            34 => Some(Opcode::DrkDerive),
            35 => Some(Opcode::SrhGet),
            36 => Some(Opcode::SrhSet),
            37 => Some(Opcode::GrGet),
            38 => Some(Opcode::GrSet),
            39 => Some(Opcode::BeginCemA),
            40 => Some(Opcode::EndCem),
            41 => Some(Opcode::SecureLoad),
            42 => Some(Opcode::SecureStore),
            43 => Some(Opcode::BeginCemU),
            _ => None,
        }
    }

    // Does the instruction need active mode, by document 01's table?
    #[tactic(auto, unfolding(instructions::specs::Board::opcode_table))]
    pub fn needs_active(self) -> bool
        ensures { result ≡ eqb (get_or opcode_table (opcode_number self) 0) 2 }
    {
        matches!(
            self,
            Opcode::DrkDerive
                | Opcode::SrhGet
                | Opcode::SrhSet
                | Opcode::GrGet
                | Opcode::GrSet
                | Opcode::EndCem
                | Opcode::SecureLoad
                | Opcode::SecureStore
        )
    }
}
