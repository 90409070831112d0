// The hash of the registers and the key stream that hides them (document 01, 'Suspend').
#![tactic(auto)]

ghost use Rattle.std.specs.Prelude.{◌≡◌, ◌∷◌, drop};
ghost use Rattle.lists.specs.Words.{words_bytes, xored_behind};
ghost use Rattle.sealing.specs.Lines.{drk_in, mac_of};
ghost use Rattle.sealing.specs.Stream.{counted, stream};

use sealing::Drk;

// The hash of R1 to R31: the MAC of byte 4 and the registers, each eight bytes high first. Never inlined: what suspends
// would grow by it, and leave the step.
#[inline(never)]
pub fn hash(drk: Drk, r: [u64; 32]) -> [u8; 16]
    ensures { result ≡ mac_of (drk_in drk) (4 ∷ words_bytes 8 (drop 1 r)) }
{
    let mut text = [0u8; 249];
    text[0] = 4;
    for i in 1..32 {
        text[i * 8 - 7..i * 8 + 1].copy_from_slice(&r[i].to_be_bytes());
    }
    drk.mac_of(&text)
}

// The hash with j xored into its last byte.
fn count(h: &[u8; 16], j: u8) -> [u8; 16]
    ensures { result ≡ counted h.now j }
{
    (u128::from_be_bytes(*h) ^ j as u128).to_be_bytes()
}

// The key stream of a hash.
fn key_stream(drk: Drk, h: &[u8; 16]) -> [u8; 256]
    ensures { result ≡ stream (drk_in drk) h.now }
{
    let w = aes::expand(&drk.line_key());
    let mut s = [0u8; 256];
    for j in 0..16 {
        s[j * 16..j * 16 + 16].copy_from_slice(&aes::encipher(&w, &count(h, j as u8)));
    }
    s
}

// Hides R1 to R31 by the key stream of a hash, or brings them back.
pub fn hide(drk: Drk, h: &[u8; 16], r: [u64; 32]) -> [u64; 32]
    ensures { result ≡ xored_behind 8 (stream (drk_in drk) h.now) r }
{
    let s = key_stream(drk, h);
    let mut q = r;
    for i in 1..32 {
        q[i] ^= texts::word_at(&s, i * 8 - 8);
    }
    q
}
