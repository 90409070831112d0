// A state as four words, one for each column, and the ways between words and bytes.
#![tactic(auto)]

ghost use Rattle.std.specs.Prelude.{◌≡◌, ◌+◌, ◌<◌, ◌≤◌, length};
ghost use Rattle.lists.specs.Parts.{put_at};
ghost use Rattle.field.specs.Field.{◌⊕◌};
ghost use Rattle.aes_standard.specs.State.{at, state, byte_of};
ghost use Rattle.columns.specs.Words.{WordAt, changed, Word, Loaded, turned, block_of, four_set};

use std::ops::BitXor;

// The four columns of a state, the first row in the highest byte of each word.
#[derive(Clone, Copy, Debug, PartialEq, Eq)]
pub struct Columns {
    pub a: u32,
    pub b: u32,
    pub c: u32,
    pub d: u32,
}

// The word of four bytes, the first one highest.
pub fn word_of(a: u8, b: u8, c: u8, d: u8) -> u32
    ensures { Word a b c d result }
{
    // Kept: `u32::from_be_bytes` misses the bar of speed (a key schedule takes 1.09 of the time, `bench/run ciphers`).
    a as u32 * 0x100_0000 + b as u32 * 0x1_0000 + c as u32 * 0x100 + d as u32
}

// A word with its last N bytes in front.
pub fn turn<const N: u32>(x: u32) -> u32
    requires { N < 4 }
    ensures { result ≡ turned x N }
{
    x.rotate_right(8 * N)
}

// The word of the four bytes that stand from place k on.
// Kept: beside `texts::word_at` of eight bytes; one for both sizes would ask `from_be_bytes` here, which is slower.
pub fn word_at(b: &[u8], k: usize) -> u32
    requires { k + 4 ≤ length b.now }
    ensures { WordAt b.now k result }
{
    word_of(b[k], b[k + 1], b[k + 2], b[k + 3])
}

// The columns of the sixteen bytes that stand from place k on.
pub fn columns_at(b: &[u8], k: usize) -> Columns
    requires { k + 16 ≤ length b.now }
    ensures { block_of result ≡ state (λ i. at b.now (k + i)) }
{
    Columns {
        a: word_at(b, k),
        b: word_at(b, k + 4),
        c: word_at(b, k + 8),
        d: word_at(b, k + 12),
    }
}

// Columns of which the second and the fourth change places.
pub fn flip(x: Columns) -> Columns
    ensures { result ≡ changed x }
{
    Columns {
        a: x.a,
        b: x.d,
        c: x.c,
        d: x.b,
    }
}

// Lays the four bytes of a word down from place k on.
pub fn put_word(x: u32, b: &mut [u8], k: usize)
    requires { k + 4 ≤ length b.old }
    ensures { b.new ≡ four_set b.old k (byte_of x 0) (byte_of x 1) (byte_of x 2) (byte_of x 3) }
{
    b[k..k + 4].copy_from_slice(&x.to_be_bytes());
}

// Lays the sixteen bytes of a block's columns down from place k on.
pub fn store(x: Columns, b: &mut [u8], k: usize)
    requires { k + 16 ≤ length b.old }
    ensures { b.new ≡ put_at k 16 (block_of x) b.old }
{
    put_word(x.a, b, k);
    put_word(x.b, b, k + 4);
    put_word(x.c, b, k + 8);
    put_word(x.d, b, k + 12);
}

// The columns of a block of sixteen bytes.
impl From<&[u8; 16]> for Columns {
    ghost from_gives = { λ b x. Loaded b.now x };

    fn from(block: &[u8; 16]) -> Columns {
        columns_at(block, 0)
    }
}

// The sixteen bytes of a block's columns.
impl From<Columns> for [u8; 16] {
    ghost from_gives = { λ x b. b ≡ block_of x };

    fn from(x: Columns) -> [u8; 16] {
        let mut block = [0u8; 16];
        store(x, &mut block, 0);
        block
    }
}

// The sum of two states.
impl BitXor for Columns {
    type Output = Columns;

    ghost bitxor_gives = { λ x y z. block_of z ≡ state (λ i. at (block_of x) i ⊕ at (block_of y) i) };

    fn bitxor(self, y: Columns) -> Columns {
        Columns {
            a: self.a ^ y.a,
            b: self.b ^ y.b,
            c: self.c ^ y.c,
            d: self.d ^ y.d,
        }
    }
}
