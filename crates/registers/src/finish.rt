// The end of a step: a fault is entered, rfi returns, any other instruction has its effect.
ghost use Rattle.std.specs.Prelude.{◌≡◌, ◌==◌};
ghost use Rattle.instructions.specs.Board.{document_board};
ghost use Rattle.instructions.specs.Fields as f;
ghost use Rattle.instructions.specs.Step.{known_fault};
ghost use Rattle.ciphers.specs.Cipher.{aes_cipher};
ghost use Rattle.registers.specs.Map.{processor_of, key_of};
ghost use Rattle.registers.specs.Effects.{Finishes};
ghost use Rattle.registers.specs.Wanted.{got_in};
ghost use Rattle.answers.specs.Numbers.{fault_in};

use crate::record::Special;
use crate::suspend::Ended;
use crate::{execute, fields, suspend};
use answers::faults::Fault;
use opcodes::opcode::Opcode;

// Is the instruction rfi?
fn is_rfi(w: u64) -> bool
    ensures { result ≡ (f.opcode w == 16) }
{
    matches!(fields::instruction(w), Some(Opcode::Rfi))
}

// The end of a step.
#[tactic(auto, using(crate::proofs::Decoding::fault_number_some), unfolding(instructions::specs::Step::finished, instructions::specs::Faults::late_fault, crate::specs::Effects::next_key))]
pub fn finish(
    r: &mut [u64; 32],
    q: Special,
    m: u64,
    known: Option<Fault>,
    fetched: Option<u64>,
    loaded: Option<u64>,
) -> Ended
    requires { fault_in known ≡ known_fault document_board m (processor_of r.old q) (got_in fetched) }
    ensures { Finishes document_board aes_cipher m (key_of q) (processor_of r.old q)
        (got_in fetched) (got_in loaded) (fault_in result.fault) r.new result.special }
{
    if let Some(fault) = known {
        return suspend::faulted(r, q, fault);
    }
    let Some(loaded) = loaded else {
        return suspend::faulted(r, q, Fault::DataLineWrong);
    };
    let w = fetched.unwrap_or(0);
    if is_rfi(w) {
        return suspend::rfi(r, q);
    }
    Ended {
        fault: None,
        special: execute::execute(r, q, w, loaded),
    }
}
