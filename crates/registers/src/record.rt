// The processor's record: R0 to R31, and all other registers; the zero record, and what a restart leaves.
ghost use Rattle.instructions.specs.Board.{document_board};
ghost use Rattle.instructions.specs.Record as r;
ghost use Rattle.sealing.specs.Lines.{drk_of};
ghost use Rattle.std.specs.Prelude.{◌≡◌};
ghost use Rattle.registers.specs.Map.{processor_of, key_of, drk_held};
ghost use Rattle.registers.specs.Effects.{Holds};

use sealing::Drk;

// pc, EPC, cause, PID, CID, CEM_Mode, DRK_Lock, DRK, SRH, CEM_Buffer, Interrupt_Hash, Interrupt_Address, saved PID
// and saved CID.
// Kept: keys and buffers in words of their own, and the mode as a number: C's record.
#[repr(C)]
#[derive(Clone, Copy, Debug, PartialEq, Eq)]
pub struct Special {
    pub pc: u64,
    pub epc: u64,
    pub cause: u64,
    pub drkhi: u64,
    pub drklo: u64,
    pub srh0: u64,
    pub srh1: u64,
    pub srh2: u64,
    pub srh3: u64,
    pub word0: u64,
    pub word1: u64,
    pub word2: u64,
    pub word3: u64,
    pub hash: [u8; 16],
    pub address: u64,
    pub pid: u32,
    pub savedpid: u32,
    pub cid: u16,
    pub savedcid: u16,
    pub mode: u8,
    pub lock: bool,
}

impl Special {
    // The DRK.
    pub fn drk(&self) -> Drk
        ensures { result ≡ drk_held self.now }
    {
        Drk {
            high: self.drkhi,
            low: self.drklo,
        }
    }
}

// The whole record, with R0 to R31.
#[repr(C)]
#[derive(Clone, Copy, Debug, PartialEq, Eq)]
pub struct Processor {
    pub r: [u64; 32],
    pub special: Special,
}

// The record with everything zero.
#[tactic(auto, unfolding(instructions::specs::Board::document_board, lists::specs::Bytes::zeros))]
pub fn zero() -> Processor
    ensures { Holds (r.blank document_board) (drk_of 0 0) result.r result.special }
{
    Processor {
        r: [0; 32],
        special: Special {
            pc: 0,
            epc: 0,
            cause: 0,
            drkhi: 0,
            drklo: 0,
            srh0: 0,
            srh1: 0,
            srh2: 0,
            srh3: 0,
            word0: 0,
            word1: 0,
            word2: 0,
            word3: 0,
            hash: [0; 16],
            address: 0,
            pid: 0,
            savedpid: 0,
            cid: 0,
            savedcid: 0,
            mode: 0,
            lock: false,
        },
    }
}

// A record with what every restart keeps of the one that was: DRK and SRH.
pub fn keeping(was: Processor, p: Processor) -> Processor
    ensures { Holds (r.keeping (processor_of was.r was.special) (processor_of p.r p.special))
        (key_of was.special) result.r result.special }
{
    let q = was.special;
    let special = Special {
        drkhi: q.drkhi,
        drklo: q.drklo,
        srh0: q.srh0,
        srh1: q.srh1,
        srh2: q.srh2,
        srh3: q.srh3,
        ..p.special
    };
    Processor { special, ..p }
}

// What reboot and power cut leave of a record.
#[tactic(auto, unfolding(instructions::specs::Record::reset))]
pub fn cleared(p: Processor) -> Processor
    ensures { Holds (r.reset document_board (processor_of p.r p.special))
        (key_of p.special) result.r result.special }
{
    keeping(p, zero())
}
