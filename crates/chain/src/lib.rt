// Whole blocks in a chain: CBC encryption and decryption in place, and the last block of a chain.
#![tactic(auto)]

ghost use Rattle.std.specs.Prelude.{◌≡◌, ◌+◌, ◌≤◌, length};
ghost use Rattle.lists.specs.Parts.{part_at};
ghost use Rattle.aes_standard.specs.State.{plus};
ghost use Rattle.aes_standard.specs.Cipher.{cipher};
ghost use Rattle.aes_standard.specs.Schedule.{key_expansion};
ghost use Rattle.aes_standard.specs.Chain.{last_of_chain, cbc_encrypt, cbc_decrypt};
ghost use Rattle.chain.specs.Equivalent.{unlinked, eq_decrypt};
ghost use Rattle.columns.specs.Words.{block_of};

use columns::Columns;
use tables::{InvMixColumns, InvSubBytes, MixColumns};

// A block at place k added to the block before and enciphered.
fn link(t: &MixColumns, w: &[u32; 44], before: Columns, b: &[u8], k: usize) -> Columns
    requires { k + 16 ≤ length b.now }
    ensures { block_of result
        ≡ cipher w.now (plus (block_of before) (part_at k 16 b.now)) }
{
    let x = before ^ columns::columns_at(b, k);
    ways::through(&t.entries, &t.entries, w, x)
}

// The block at place k, deciphered and added to the block before, takes its own place.
fn unlink(
    t: &InvMixColumns,
    u: &InvSubBytes,
    v: &[u32; 44],
    before: Columns,
    b: &mut [u8],
    k: usize,
)
    requires { k + 16 ≤ length b.old }
    ensures { b.new ≡ unlinked v.now (block_of before) k b.old }
{
    let x = ways::through(
        &t.entries,
        &u.entries,
        v,
        columns::flip(columns::columns_at(b, k)),
    );
    let y = columns::flip(x) ^ before;
    columns::store(y, b, k);
}

// Kept: `absorb`, `encrypt` and `unchain` each go over the blocks by themselves. One loop with the step as a closure
// would be no plainer: the first has nothing to lay down, the third keeps the old block, and each has its own invariant.

// The last block of the chain over all whole blocks of b, after the block before.
pub fn absorb(w: &[u32; 44], before: &[u8; 16], b: &[u8]) -> [u8; 16]
    ensures { result ≡ last_of_chain w.now before.now b.now }
{
    let n = b.len() / 16;
    if n == 0 {
        return *before;
    }
    let t = tables::mixed();
    let mut x = Columns::from(before);
    for i in 0..n {
        x = link(&t, w, x, b, i * 16);
    }
    x.into()
}

// CBC encryption of all whole blocks of b, in place.
pub fn encrypt(w: &[u32; 44], iv: &[u8; 16], b: &mut [u8])
    ensures { b.new ≡ cbc_encrypt w.now iv.now b.old }
{
    let t = tables::mixed();
    let n = b.len() / 16;
    let mut x = Columns::from(iv);
    for i in 0..n {
        x = link(&t, w, x, b, i * 16);
        columns::store(x, b, i * 16);
    }
}

// CBC decryption of all whole blocks of b, in place, under a key.
pub fn decrypt(key: &[u8; 16], iv: &[u8; 16], b: &mut [u8])
    ensures { b.new ≡ cbc_decrypt (key_expansion key.now) iv.now
        b.old }
{
    let w = schedule::expand(key);
    let v = schedule::invert(&w);
    unchain(&v, iv, b);
}

// CBC decryption of all whole blocks of b, in place, under the keys of the equivalent inverse cipher.
fn unchain(v: &[u32; 44], iv: &[u8; 16], b: &mut [u8])
    ensures { b.new ≡ eq_decrypt v.now iv.now b.old }
{
    let t = tables::unmixed();
    let u = tables::inv_sbox();
    let n = b.len() / 16;
    let mut x = Columns::from(iv);
    for i in 0..n {
        let c = columns::columns_at(b, i * 16);
        unlink(&t, &u, v, x, b, i * 16);
        x = c;
    }
}
