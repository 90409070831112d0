// What a step wants of the memory once its instruction was fetched.
ghost use Rattle.std.specs.Prelude.{◌≡◌, ◌≤◌, true, false};
ghost use Rattle.directory.specs.TagIn.{tag_in};
ghost use Rattle.instructions.specs.Board.{document_board};
ghost use Rattle.instructions.specs.Faults.{fetch_fault};
ghost use Rattle.instructions.specs.Operations as o;
ghost use Rattle.instructions.specs.Step.{wish_for};
ghost use Rattle.instructions.specs.Wishes.{word};
ghost use Rattle.answers.specs.Numbers.{fault_of};
ghost use Rattle.ciphers.specs.Cipher.{aes_cipher};
ghost use Rattle.registers.specs.Map.{processor_of, key_of};
ghost use Rattle.registers.specs.Wanted.{wish_in, got_in, Decides};

use crate::record::Special;
use crate::{faults, fields};
use answers::faults::Fault;
use directory::tag::Tag;
use opcodes::opcode::Opcode;
use sealing::Drk;

// What a step wishes of the memory: nothing; under a tag, the word at an address, and where one is given another is
// written there; another key.
#[derive(Clone, Copy, Debug, PartialEq, Eq)]
pub enum Wish {
    Nothing,
    Word {
        tag: Tag,
        address: u64,
        store: Option<u64>,
    },
    NewKey(Drk),
}

// The word at an address under a tag.
#[tactic(auto, unfolding(instructions::specs::Board::document_board))]
fn load(tag: Tag, address: u64) -> Wish
    ensures { wish_in result ≡ word (tag_in tag) address document_board.word_bytes false 0 }
{
    Wish::Word {
        tag,
        address,
        store: None,
    }
}

// The same, with another word written there.
#[tactic(auto, unfolding(instructions::specs::Board::document_board))]
fn store(tag: Tag, address: u64, value: u64) -> Wish
    ensures { wish_in result ≡ word (tag_in tag) address document_board.word_bytes true value }
{
    Wish::Word {
        tag,
        address,
        store: Some(value),
    }
}

// What an instruction with nothing amiss wishes.
#[tactic(auto, unfolding(instructions::specs::Step::wish_for, instructions::specs::Operations::Ra, instructions::specs::Operations::Rb, instructions::specs::Record::reg, sealing::specs::Lines::drk_of))]
fn want(r: &[u64; 32], q: Special, w: u64, a: u64) -> Wish
    requires { a ≡ o.address document_board (processor_of r.now q) w }
    ensures { wish_in result ≡ wish_for document_board aes_cipher (key_of q) (processor_of r.now q) w }
{
    let x = fields::word_a(r, w);
    let y = fields::word_b(r, w);
    match fields::instruction(w) {
        Some(Opcode::Load) => load(Tag::Ordinary, a),
        Some(Opcode::Store) => store(Tag::Ordinary, a, x),
        Some(Opcode::DrkSet) => Wish::NewKey(Drk { high: x, low: y }),
        Some(Opcode::SecureLoad) => load(Tag::SecureData, a),
        Some(Opcode::SecureStore) => store(Tag::SecureData, a, x),
        _ => Wish::Nothing,
    }
}

// The data access, or the fault that is known once the fetch has answered: the word that was fetched is none where its
// line's check failed.
#[tactic(auto, using(crate::proofs::Decoding::fault_number_some), unfolding(instructions::specs::Step::known_fault, instructions::specs::Step::data_wish))]
pub fn decide(
    r: &[u64; 32],
    q: Special,
    m: u64,
    fetch: Result<(), Fault>,
    fetched: Option<u64>,
) -> Result<Wish, Fault>
    requires fetch_value { fault_of fetch ≡ fetch_fault m (processor_of r.now q) }
    requires le_m { 8 ≤ m }
    ensures { Decides document_board aes_cipher m (key_of q) (processor_of r.now q) (got_in fetched)
        result }
{
    fetch?;
    let w = fetched.ok_or(Fault::CodeLineWrong)?;
    let a = faults::address(r, q, w);
    faults::decode_fault(r, q, m, w, a)?;
    Ok(want(r, q, w, a))
}
