// Faults and interrupts are entered, and rfi returns.
ghost use Rattle.std.specs.Prelude.{◌≡◌, true};
ghost use Rattle.instructions.specs.Board.{document_board};
ghost use Rattle.instructions.specs.Suspend as s;
ghost use Rattle.ciphers.specs.Cipher.{aes_cipher};
ghost use Rattle.registers.specs.Map.{processor_of, key_of};
ghost use Rattle.registers.specs.Effects.{Holds, Returns};
ghost use Rattle.answers.specs.Numbers.{fault_number, fault_in};

use crate::record::Special;
use answers::faults::Fault;

// The fault of a step, where it has one, and the registers after it.
#[derive(Clone, Copy, Debug, PartialEq, Eq)]
pub struct Ended {
    pub fault: Option<Fault>,
    pub special: Special,
}

// R0 to R31 become other words.
fn replace(r: &mut [u64; 32], x: [u64; 32])
    ensures { r.new ≡ x }
{
    *r = x;
}

// A fault or an interrupt: an active thread is suspended; then EPC = pc, cause = number, pc = 64.
#[tactic(auto, unfolding(instructions::specs::Suspend::entered, instructions::specs::Suspend::suspended, instructions::specs::Suspend::hash_of, instructions::specs::Suspend::hidden, instructions::specs::Record::active, instructions::specs::Board::document_board, ciphers::specs::Cipher::aes_cipher))]
// Kept: n is a number, since an interrupt's 32 is no fault.
pub fn enter(r: &mut [u64; 32], q: Special, n: u64) -> Special
    ensures { Holds (s.entered document_board aes_cipher (key_of q) n (processor_of r.old q))
        (key_of q) r.new result }
{
    let entered = Special {
        epc: q.pc,
        cause: n,
        pc: 64,
        ..q
    };
    if q.mode != 1 {
        return entered;
    }
    let old = *r;
    let h = hiding::hash(q.drk(), old);
    let new = hiding::hide(q.drk(), &h, old);
    replace(r, new);
    Special {
        hash: h,
        address: q.pc,
        savedpid: q.pid,
        savedcid: q.cid,
        mode: 2,
        ..entered
    }
}

// A fault is entered.
pub fn faulted(r: &mut [u64; 32], q: Special, fault: Fault) -> Ended
    ensures fault { fault_in result.fault ≡ fault_number fault }
    ensures holds { Holds (s.entered document_board aes_cipher (key_of q) (fault_number fault)
        (processor_of r.old q)) (key_of q) r.new result.special }
{
    Ended {
        fault: Some(fault),
        special: enter(r, q, fault.number()),
    }
}

// Does rfi resume?
#[tactic(auto, unfolding(instructions::specs::Suspend::resumes))]
fn resuming(r: &[u64; 32], q: Special) -> bool
    ensures { result ≡ s.resumes (processor_of r.now q) }
{
    q.mode == 2 && q.epc == q.address && q.pid == q.savedpid && q.cid == q.savedcid
}

// A resume: the registers are brought back, if their hash is right, with mode 1; pc = EPC.
#[tactic(auto, using(crate::proofs::Suspending::same_pointwise), unfolding(instructions::specs::Suspend::returned, instructions::specs::Suspend::restored, instructions::specs::Suspend::hash_right, instructions::specs::Suspend::hash_of, instructions::specs::Suspend::hidden, instructions::specs::Board::document_board, ciphers::specs::Cipher::aes_cipher))]
fn resume(r: &mut [u64; 32], q: Special) -> Ended
    requires { true ≡ s.resumes (processor_of r.old q) }
    ensures { Returns document_board aes_cipher (key_of q) (processor_of r.old q)
        (fault_in result.fault) r.new result.special }
{
    let h = q.hash;
    let old = *r;
    let back = hiding::hide(q.drk(), &h, old);
    if hiding::hash(q.drk(), back) == h {
        replace(r, back);
        return Ended {
            fault: None,
            special: Special {
                pc: q.epc,
                mode: 1,
                ..q
            },
        };
    }
    faulted(r, q, Fault::RegisterHashWrong)
}

// rfi: a resume, or a jump to EPC.
#[tactic(auto, unfolding(instructions::specs::Suspend::returned))]
pub fn rfi(r: &mut [u64; 32], q: Special) -> Ended
    ensures { Returns document_board aes_cipher (key_of q) (processor_of r.old q)
        (fault_in result.fault) r.new result.special }
{
    if resuming(r, q) {
        return resume(r, q);
    }
    Ended {
        fault: None,
        special: Special { pc: q.epc, ..q },
    }
}
