// The faults of the machine, by document 01's numbers and names.
ghost use Rattle.std.specs.Prelude.{◌≡◌, Some};
ghost use Rattle.answers.specs.Numbers.{fault_number, fault_in, fault_name, fault_text, IsFault};

use std::fmt;

// A fault.
#[derive(Clone, Copy, Debug, PartialEq, Eq)]
pub enum Fault {
    DrkLocked,
    ActiveModeNeeded,
    OutsideNormalMode,
    CodeLineWrong,
    DataLineWrong,
    RegisterHashWrong,
    NotOnThisProcessor,
    RestoreRefused,
    NotAligned,
    BeyondMemory,
    UndefinedOpcode,
}

impl Fault {
    // Document 01's number.
    pub fn number(self) -> u64
        ensures { result ≡ fault_number self }
    {
        match self {
            Fault::DrkLocked => 1,
            Fault::ActiveModeNeeded => 2,
            Fault::OutsideNormalMode => 3,
            Fault::CodeLineWrong => 4,
            Fault::DataLineWrong => 5,
            Fault::RegisterHashWrong => 6,
            Fault::NotOnThisProcessor => 7,
            Fault::RestoreRefused => 8,
            Fault::NotAligned => 9,
            Fault::BeyondMemory => 10,
            Fault::UndefinedOpcode => 11,
        }
    }

    // Document 01's name.
    pub fn name(self) -> &'static str
        ensures { result.now ≡ fault_name self }
    {
        match self {
            Fault::DrkLocked => "DRK locked",
            Fault::ActiveModeNeeded => "active mode needed",
            Fault::OutsideNormalMode => "begin_cem.a outside normal mode",
            Fault::CodeLineWrong => "code line's MAC or place wrong",
            Fault::DataLineWrong => "data line's MAC wrong",
            Fault::RegisterHashWrong => "register hash wrong",
            Fault::NotOnThisProcessor => "not on this processor",
            Fault::RestoreRefused => "restore refused",
            Fault::NotAligned => "address not aligned",
            Fault::BeyondMemory => "address beyond memory",
            Fault::UndefinedOpcode => "undefined opcode",
        }
    }
}

// A number that is no fault's.
#[derive(Clone, Copy, Debug, PartialEq, Eq)]
pub struct NoFault(pub u64);

impl TryFrom<u64> for Fault {
    type Error = NoFault;

    ghost try_from_gives = { IsFault };

    fn try_from(number: u64) -> Result<Fault, NoFault> {
        match number {
            1 => Ok(Fault::DrkLocked),
            2 => Ok(Fault::ActiveModeNeeded),
            3 => Ok(Fault::OutsideNormalMode),
            4 => Ok(Fault::CodeLineWrong),
            5 => Ok(Fault::DataLineWrong),
            6 => Ok(Fault::RegisterHashWrong),
            7 => Ok(Fault::NotOnThisProcessor),
            8 => Ok(Fault::RestoreRefused),
            9 => Ok(Fault::NotAligned),
            10 => Ok(Fault::BeyondMemory),
            11 => Ok(Fault::UndefinedOpcode),
            _ => Err(NoFault(number)),
        }
    }
}

// The number and the name, as in `1 (DRK locked)`.
impl fmt::Display for Fault {
    ghost output = { λ fault. Some (fault_text fault) };

    fn fmt<W: fmt::Write>(&self, f: &mut fmt::Formatter<W>) -> fmt::Result {
        write!(f, "{} ({})", self.number(), self.name())
    }
}

// The number of a fault, and 0 where there is none.
// Kept: 0 for none, as C's record of the report has it.
pub fn number_of(fault: Option<Fault>) -> u64
    ensures { result ≡ fault_in fault }
{
    match fault {
        Some(fault) => fault.number(),
        None => 0,
    }
}
