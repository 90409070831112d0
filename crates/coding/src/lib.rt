// Instruction words made of an opcode and its operands.
#![tactic(auto)]

ghost use Rattle.std.specs.Prelude.{◌≡◌, ◌%◌, IfOk};
ghost use Rattle.coding.specs.Words.{Fields, Named};

use board_numbers::errors::FileError;

// The fields of document 01 in their places: opcode, a, b and the low 16 bits.
// Kept: the opcode is a number, as `encode` has it.
fn packed(op: u64, a: u64, b: u64, low: u64) -> u64
    ensures { Fields (op % 64) (a % 32) (b % 32) (low % 65536) result }
{
    op % 64 * 0x400_0000 + a % 32 * 0x20_0000 + b % 32 * 0x1_0000 + low % 0x1_0000
}

// An immediate of 16 bits, from -32768 to 32767 modulo 2^64.
fn immediate(n: u64) -> Result<u64, FileError>
    ensures { IfOk result (λ m. m ≡ n) }
{
    match n {
        0..=0x7fff | 0xffff_ffff_ffff_8000.. => Ok(n),
        _ => Err(FileError::TooLarge),
    }
}

// A selector of three bits.
fn selector(n: u64) -> Result<u64, FileError>
    ensures { IfOk result (λ m. m ≡ n) }
{
    if n < 8 {
        Ok(n)
    } else {
        Err(FileError::TooLarge)
    }
}

// A word with an immediate of 16 bits.
fn with_immediate(op: u64, a: u64, b: u64, imm: u64) -> Result<u64, FileError>
    ensures { IfOk result (λ w. Fields (op % 64) (a % 32) (b % 32) (imm % 65536) w) }
{
    Ok(packed(op, a, b, immediate(imm)?))
}

// A word with a selector of three bits.
fn with_selector(op: u64, a: u64, b: u64, sel: u64) -> Result<u64, FileError>
    ensures { IfOk result (λ w. Fields (op % 64) (a % 32) (b % 32) (sel % 65536) w) }
{
    Ok(packed(op, a, b, selector(sel)?))
}

// The word of an opcode with its operands in the order in which a board file has them.
// Kept: the opcode is a number, since the contract speaks of every one, named or not.
pub fn encode(op: usize, x: u64, y: u64, z: u64) -> Result<u64, FileError>
    ensures { IfOk result (λ w. Named (op % 64) (x % 32) w) }
{
    let code = op as u64;
    match op {
        1 | 2 | 3 | 4 | 5 => Ok(packed(code, x, y, z % 32 * 0x800)),
        6 | 8 | 10 | 11 | 41 | 42 => with_immediate(code, x, y, z),
        37 => with_selector(code, x, y, z),
        38 => with_selector(code, x, 0, y),
        _ => Ok(packed(code, x, y, 0)),
    }
}
