// The fields of an instruction word, the instruction and the registers that they name, and sums of words.
ghost use Rattle.std.specs.Prelude.{◌≡◌, ◌+◌, ◌-◌, ◌*◌, ◌%◌, ◌<◌, slice_index};
ghost use Rattle.std.specs.Int.Count.{count_leading_zeros};
ghost use Rattle.instructions.specs.Board.{document_board, modulus};
ghost use Rattle.instructions.specs.Fields as f;
ghost use Rattle.opcodes.specs.Numbers.{opcode_named};

use opcodes::opcode::Opcode;

// The opcode's number.
#[tactic(auto, unfolding(instructions::specs::Fields::opcode))]
pub fn opcode(w: u64) -> u64
    ensures { (result ≡ f.opcode w) × (result < 64) }
{
    w / 67108864 % 64
}

// The instruction, where its opcode has one.
pub fn instruction(w: u64) -> Option<Opcode>
    ensures { result ≡ opcode_named (f.opcode w) }
{
    Opcode::named(opcode(w))
}

// Register a.
#[tactic(auto, unfolding(instructions::specs::Fields::field_a))]
pub fn field_a(w: u64) -> usize
    ensures { (result ≡ f.field_a w) × (result < 32) }
{
    (w / 2097152 % 32) as usize
}

// The words in registers a, b and c.
// Kept: three functions; the meaning names the fields one by one (field_a, field_b, field_c), and a const parameter would
// put their places in the word at each caller.
pub fn word_a(r: &[u64; 32], w: u64) -> u64
    ensures { result ≡ slice_index r.now (f.field_a w) }
{
    let n = field_a(w);
    r[n]
}

#[tactic(auto, unfolding(instructions::specs::Fields::field_b))]
pub fn word_b(r: &[u64; 32], w: u64) -> u64
    ensures { result ≡ slice_index r.now (f.field_b w) }
{
    let n = (w / 65536 % 32) as usize;
    r[n]
}

#[tactic(auto, unfolding(instructions::specs::Fields::field_c))]
pub fn word_c(r: &[u64; 32], w: u64) -> u64
    ensures { result ≡ slice_index r.now (f.field_c w) }
{
    let n = (w / 2048 % 32) as usize;
    r[n]
}

// sel.
#[tactic(auto, unfolding(instructions::specs::Fields::sel))]
pub fn sel(w: u64) -> u64
    ensures { result ≡ f.sel w }
{
    w % 8
}

// imm, signed, as a word.
#[tactic(auto, unfolding(instructions::specs::Fields::imm, instructions::specs::Board::document_board, instructions::specs::Board::modulus))]
pub fn imm(w: u64) -> u64
    ensures { result ≡ f.imm document_board w }
{
    let x = w % 65536;
    if 32768 <= x {
        return 18446744073709486080 + x;
    }
    x
}

// x + y and x - y, as words.
#[tactic(auto, unfolding(instructions::specs::Board::document_board, instructions::specs::Board::modulus))]
pub fn plus(x: u64, y: u64) -> u64
    ensures { result ≡ (x + y) % modulus document_board }
{
    x.wrapping_add(y)
}

#[tactic(auto, unfolding(instructions::specs::Board::document_board, instructions::specs::Board::modulus))]
pub fn minus(x: u64, y: u64) -> u64
    ensures { result ≡ (x + (modulus document_board - y)) % modulus document_board }
{
    x.wrapping_sub(y)
}

// The leading zeros of a word.
#[tactic(auto, unfolding(instructions::specs::Board::document_board))]
pub fn leading(x: u64) -> u64
    ensures { result ≡ count_leading_zeros (8 * document_board.word_bytes) x }
{
    x.leading_zeros() as u64
}
