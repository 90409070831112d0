// Numbers as they stand in a board file: decimal, 0x and hexadecimal digits, a minus sign, or a register r0 to r31.
ghost use Rattle.std.specs.Prelude.{◌≡◌, ◌-◌, ◌%◌, ◌^◌, ◌<◌, ◌≤◌, length, IfOk};
ghost use Rattle.board_numbers.specs.Digits.{value_of, number_of};
ghost use Rattle.board_numbers.specs.Numbers.{said_by};

use crate::errors::FileError;

// A number that was read: a plain one, or a register's.
// Kept: a u64 for a register too, as `value` answers both alike; a u8 says no more than that of the 32 there are.
#[derive(Clone, Copy, Debug, PartialEq, Eq)]
pub enum Number {
    Plain(u64),
    Register(u64),
}

impl Number {
    // What it says: its value, or which register it is.
    pub fn value(self) -> u64
        ensures { result ≡ said_by self }
    {
        match self {
            Number::Plain(n) | Number::Register(n) => n,
        }
    }
}

impl Default for Number {
    fn default() -> Number {
        Number::Plain(0)
    }
}

// The number whose digits a text has, in base 10 or 16.
fn digits(text: &[u8], base: u32) -> Result<u64, FileError>
    requires low { 2 ≤ base }
    requires high { base ≤ 16 }
    ensures value { IfOk result (λ n. n ≡ value_of base text.now) }
    ensures any { IfOk result (λ n. 0 < length text.now) }
{
    if text.is_empty() {
        return Err(FileError::NoNumber);
    }
    let mut value: u64 = 0;
    for c in text {
        let digit = char::from(*c).to_digit(base).ok_or(FileError::NoNumber)?;
        let shifted = value
            .checked_mul(u64::from(base))
            .ok_or(FileError::TooLarge)?;
        value = shifted
            .checked_add(u64::from(digit))
            .ok_or(FileError::TooLarge)?;
    }
    Ok(value)
}

// A number with a minus sign before it, modulo 2^64.
fn negated(n: u64) -> Result<u64, FileError>
    ensures { IfOk result (λ m. m ≡ (2 ^ 64 - n) % 2 ^ 64) }
{
    if 1 << 63 < n {
        return Err(FileError::TooLarge);
    }
    Ok(n.wrapping_neg())
}

// A register's number, up to 31.
fn register(n: u64) -> Result<u64, FileError>
    ensures { IfOk result (λ m. m ≡ n) }
{
    if 31 < n {
        return Err(FileError::TooLarge);
    }
    Ok(n)
}

// The number that a word says.
pub fn read(word: &[u8]) -> Result<Number, FileError>
    ensures { IfOk result (λ n. said_by n ≡ number_of word.now) }
{
    match word {
        [b'-', rest @ ..] => Ok(Number::Plain(negated(digits(rest, 10)?)?)),
        [b'r', rest @ ..] => Ok(Number::Register(register(digits(rest, 10)?)?)),
        [b'0', b'x', rest @ ..] => Ok(Number::Plain(digits(rest, 16)?)),
        _ => Ok(Number::Plain(digits(word, 10)?)),
    }
}
