// The effect of an instruction once nothing is amiss.
ghost use Rattle.std.specs.Prelude.{◌≡◌, ◌<◌, slice_index};
ghost use Rattle.instructions.specs.Board.{document_board};
ghost use Rattle.instructions.specs.Record.{with_reg};
ghost use Rattle.instructions.specs.Fields as f;
ghost use Rattle.instructions.specs.Operations as o;
ghost use Rattle.ciphers.specs.Cipher.{aes_cipher};
ghost use Rattle.registers.specs.Map.{processor_of, key_of, words_of};
ghost use Rattle.registers.specs.Effects.{Holds, next_key};

use crate::record::Special;
use crate::{fields, special};
use opcodes::opcode::Opcode;

// Does the opcode write a value to Ra?
#[tactic(auto, unfolding(instructions::specs::Operations::has_value))]
pub fn has_value(w: u64) -> bool
    ensures { result ≡ o.has_value w }
{
    matches!(
        fields::instruction(w),
        Some(
            Opcode::Add
                | Opcode::Sub
                | Opcode::And
                | Opcode::Or
                | Opcode::Xor
                | Opcode::Addi
                | Opcode::Clz
                | Opcode::Load
                | Opcode::EpcGet
                | Opcode::CauseGet
                | Opcode::GrSet
                | Opcode::SecureLoad
        )
    )
}

// The value that the opcode writes to Ra.
#[tactic(auto, unfolding(instructions::specs::Operations::value, instructions::specs::Operations::Rb, instructions::specs::Operations::Rc, instructions::specs::Record::reg))]
pub fn value(r: &[u64; 32], q: Special, w: u64, loaded: u64) -> u64
    ensures { result ≡ o.value document_board (processor_of r.now q) w loaded }
{
    let b = fields::word_b(r, w);
    let c = fields::word_c(r, w);
    match fields::instruction(w) {
        Some(Opcode::Add) => fields::plus(b, c),
        Some(Opcode::Sub) => fields::minus(b, c),
        Some(Opcode::And) => b & c,
        Some(Opcode::Or) => b | c,
        Some(Opcode::Xor) => b ^ c,
        Some(Opcode::Addi) => fields::plus(b, fields::imm(w)),
        Some(Opcode::Clz) => fields::leading(b),
        Some(Opcode::Load | Opcode::SecureLoad) => loaded,
        Some(Opcode::EpcGet) => q.epc,
        Some(Opcode::CauseGet) => q.cause,
        Some(Opcode::GrSet) => word_of(q, w),
        _ => 0,
    }
}

// Word sel of CEM_Buffer, and 0 where there is none.
fn word_of(q: Special, w: u64) -> u64
    ensures { result ≡ slice_index (words_of q) (f.sel w) }
{
    match fields::sel(w) {
        0 => q.word0,
        1 => q.word1,
        2 => q.word2,
        3 => q.word3,
        _ => 0,
    }
}

// A value is written to a register; a write to R0 is lost.
#[tactic(auto, unfolding(instructions::specs::Record::with_reg))]
pub fn set_register(r: &mut [u64; 32], n: usize, v: u64)
    requires { n < 32 }
    ensures { r.new ≡ with_reg n v r.old }
{
    if n != 0 {
        r[n] = v;
    }
}

// The pc behind an instruction: the start of the next line in active mode from offset 44 on.
#[tactic(auto, unfolding(instructions::specs::Operations::behind))]
pub fn behind(pc: u64, concealed: bool) -> u64
    ensures { result ≡ o.behind document_board pc concealed }
{
    if concealed && 44 <= pc % 64 {
        return fields::plus(pc / 64 * 64, 64);
    }
    fields::plus(pc, 4)
}

// The mode after the instruction.
#[tactic(auto, unfolding(instructions::specs::Operations::next_mode))]
// Kept: a mode is a number, as C's record has it.
pub fn next_mode(r: &[u64; 32], q: Special, w: u64) -> u8
    ensures { result ≡ o.next_mode (processor_of r.now q) w }
{
    match fields::instruction(w) {
        Some(Opcode::BeginCemA) => 1,
        Some(Opcode::EndCem) => 0,
        _ => q.mode,
    }
}

// The next pc.
#[tactic(auto, using(crate::proofs::NextPc::four_times), unfolding(instructions::specs::Operations::next_pc, instructions::specs::Operations::taken, instructions::specs::Operations::target, instructions::specs::Operations::Ra, instructions::specs::Operations::Rb, instructions::specs::Record::reg))]
pub fn next_pc(r: &[u64; 32], q: Special, w: u64) -> u64
    ensures { result ≡ o.next_pc document_board (processor_of r.now q) w }
{
    let a = fields::word_a(r, w);
    let b = fields::word_b(r, w);
    match fields::instruction(w) {
        Some(Opcode::Jr) => a,
        Some(Opcode::Beq) if a == b => {
            let i = fields::imm(w);
            let j = fields::plus(i, i);
            fields::plus(q.pc, fields::plus(j, j))
        }
        _ => behind(q.pc, q.mode == 1 || next_mode(r, q, w) == 1),
    }
}

// What the opcode does to registers other than Ra, pc and the mode, and to the DRK.
#[tactic(auto, unfolding(instructions::specs::Operations::effect, instructions::specs::Operations::Ra, instructions::specs::Operations::Rb, instructions::specs::Record::reg, crate::specs::Effects::next_key))]
fn effect(r: &[u64; 32], q: Special, w: u64) -> Special
    ensures { Holds (o.effect aes_cipher (key_of q) (processor_of r.now q) w)
        (next_key (key_of q) (processor_of r.now q) w) r.now result }
{
    let a = fields::word_a(r, w);
    let b = fields::word_b(r, w);
    match fields::instruction(w) {
        Some(Opcode::EpcSet) => special::epc_set(q, a),
        Some(Opcode::CtxSet) => special::ids_set(q, a, b),
        Some(Opcode::DrkSet) => special::drk_set(q, a, b),
        Some(Opcode::DrkLock) => special::drk_lock(q),
        Some(Opcode::DrkDerive) => special::drk_derive(q, a, b),
        Some(Opcode::SrhGet) => special::srh_get(q),
        Some(Opcode::SrhSet) => special::srh_set(q),
        Some(Opcode::GrGet) => special::gr_get(q, w, a, b),
        _ => q,
    }
}

// The registers after an instruction other than rfi, the word that it loaded being given.
#[tactic(auto, unfolding(instructions::specs::Operations::executed, instructions::specs::Operations::effect, instructions::specs::Operations::next_mode, crate::specs::Effects::next_key))]
pub fn execute(r: &mut [u64; 32], q: Special, w: u64, loaded: u64) -> Special
    ensures { Holds (o.executed document_board aes_cipher (key_of q) (processor_of r.old q) w loaded)
        (next_key (key_of q) (processor_of r.old q) w) r.new result }
{
    if has_value(w) {
        let v = value(r, q, w, loaded);
        let a = fields::field_a(w);
        set_register(r, a, v);
        return Special {
            pc: behind(q.pc, q.mode == 1),
            ..q
        };
    }
    let pc = next_pc(r, q, w);
    if let Some(Opcode::Beq | Opcode::Jr | Opcode::Store) = fields::instruction(w) {
        return Special { pc, ..q };
    }
    Special {
        pc,
        mode: next_mode(r, q, w),
        ..effect(r, q, w)
    }
}
