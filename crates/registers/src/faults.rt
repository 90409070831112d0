// The faults that are known before the data access, in the order checked.
ghost use Rattle.std.specs.Prelude.{◌≡◌, ◌≤◌};
ghost use Rattle.instructions.specs.Rules.{first_of};
ghost use Rattle.instructions.specs.Board.{document_board};
ghost use Rattle.instructions.specs.Operations as o;
ghost use Rattle.instructions.specs.Faults as s;
ghost use Rattle.answers.specs.Numbers.{fault_of};
ghost use Rattle.registers.specs.Map.{processor_of};

use crate::fields;
use crate::record::Special;
use answers::faults::Fault;
use opcodes::opcode::Opcode;

// 9 if pc is not a multiple of 4, 10 if pc >= M, in active mode 4 if pc mod 64 >= 48, and otherwise none.
#[tactic(auto, unfolding(instructions::specs::Faults::fetch_fault, instructions::specs::Record::active))]
pub fn fetch_fault(r: &[u64; 32], q: Special, m: u64) -> Result<(), Fault>
    ensures { fault_of result ≡ s.fetch_fault m (processor_of r.now q) }
{
    if q.pc % 4 != 0 {
        return Err(Fault::NotAligned);
    }
    if m <= q.pc {
        return Err(Fault::BeyondMemory);
    }
    if q.mode == 1 && 48 <= q.pc % 64 {
        return Err(Fault::CodeLineWrong);
    }
    Ok(())
}

// Rb + imm, as a word.
#[tactic(auto, unfolding(instructions::specs::Operations::address, instructions::specs::Operations::Rb, instructions::specs::Record::reg))]
pub fn address(r: &[u64; 32], q: Special, w: u64) -> u64
    ensures { result ≡ o.address document_board (processor_of r.now q) w }
{
    let b = fields::word_b(r, w);
    fields::plus(b, fields::imm(w))
}

// Does the instruction name a data address?
#[tactic(auto, unfolding(instructions::specs::Faults::has_address))]
pub fn has_address(w: u64) -> bool
    ensures { result ≡ s.has_address w }
{
    matches!(
        fields::instruction(w),
        Some(Opcode::Load | Opcode::Store | Opcode::SecureLoad | Opcode::SecureStore)
    )
}

// Is sel one that the opcode lists?
#[tactic(auto, unfolding(instructions::specs::Faults::sel_listed))]
fn sel_listed(w: u64) -> bool
    ensures { result ≡ s.sel_listed w }
{
    let s = fields::sel(w);
    match fields::instruction(w) {
        Some(Opcode::DrkSet) => s == 0,
        Some(Opcode::GrGet) => s == 0 || s == 2,
        Some(Opcode::GrSet) => s <= 3,
        _ => true,
    }
}

// What decoding finds of the concealed thread's instructions: 1, 3, 7, and otherwise nothing.
#[tactic(auto, unfolding(instructions::specs::Faults::thread_faults, instructions::specs::Faults::sel_listed))]
fn thread_fault(r: &[u64; 32], q: Special, w: u64) -> Result<(), Fault>
    ensures { fault_of result ≡ first_of (s.thread_faults (processor_of r.now q) w) }
{
    match fields::instruction(w) {
        Some(Opcode::DrkSet) if q.lock => Err(Fault::DrkLocked),
        Some(Opcode::BeginCemA) if q.mode != 0 => Err(Fault::OutsideNormalMode),
        Some(Opcode::BeginCemU) => Err(Fault::NotOnThisProcessor),
        _ if sel_listed(w) => Ok(()),
        _ => Err(Fault::NotOnThisProcessor),
    }
}

// What decoding finds of the opcode: 11, 2, 1, 3, 7, and otherwise nothing.
#[tactic(auto, using(crate::proofs::Decoding::opcode_undefined, crate::proofs::Decoding::opcode_exists, crate::proofs::Decoding::opcode_active), unfolding(instructions::specs::Faults::opcode_faults, instructions::specs::Record::active))]
fn opcode_fault(r: &[u64; 32], q: Special, w: u64) -> Result<(), Fault>
    ensures { fault_of result ≡ first_of (s.opcode_faults document_board (processor_of r.now q) w) }
{
    let Some(opcode) = fields::instruction(w) else {
        return Err(Fault::UndefinedOpcode);
    };
    if q.mode != 1 && opcode.needs_active() {
        return Err(Fault::ActiveModeNeeded);
    }
    thread_fault(r, q, w)
}

// What decoding finds of the data address: 9, 10, and otherwise nothing.
#[tactic(auto, using(crate::proofs::Decoding::ltb_minus), unfolding(instructions::specs::Faults::address_faults, instructions::specs::Board::document_board))]
fn address_fault(r: &[u64; 32], q: Special, m: u64, w: u64, a: u64) -> Result<(), Fault>
    requires a_value { a ≡ o.address document_board (processor_of r.now q) w }
    requires le_m { 8 ≤ m }
    ensures { fault_of result ≡ first_of (s.address_faults document_board m (processor_of r.now q) w) }
{
    if !has_address(w) {
        return Ok(());
    }
    if a % 8 != 0 {
        return Err(Fault::NotAligned);
    }
    if m - 8 < a {
        return Err(Fault::BeyondMemory);
    }
    Ok(())
}

// What decoding finds: of the opcode, and then of the address.
#[tactic(auto, using(crate::proofs::Decoding::decode_fault_opcode, crate::proofs::Decoding::decode_fault_address))]
pub fn decode_fault(r: &[u64; 32], q: Special, m: u64, w: u64, a: u64) -> Result<(), Fault>
    requires a_value { a ≡ o.address document_board (processor_of r.now q) w }
    requires le_m { 8 ≤ m }
    ensures { fault_of result ≡ s.decode_fault document_board m (processor_of r.now q) w }
{
    opcode_fault(r, q, w)?;
    address_fault(r, q, m, w, a)
}
