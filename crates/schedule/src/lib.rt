// The key schedule, and the round keys of the equivalent inverse cipher.
#![tactic(auto)]

ghost use Rattle.std.specs.Prelude.{◌≡◌, ◌*◌, ◌≤◌};
ghost use Rattle.aes_standard.specs.Schedule.{key_expansion};
ghost use Rattle.columns.specs.Words.{NextKey, four_set};
ghost use Rattle.schedule.specs.Inverse.{Unmixed, InverseKey, InverseKeys, alike};

use columns::Columns;
use tables::{InvMixColumns, SubBytes};

// The round constants, Rcon[1] to Rcon[10].
const RCON: [u32; 10] = [
    0x01000000, 0x02000000, 0x04000000, 0x08000000, 0x10000000, 0x20000000, 0x40000000, 0x80000000,
    0x1b000000, 0x36000000,
];

// Four columns alike.
fn alike(k: u32) -> Columns
    ensures { result ≡ alike k }
{
    Columns {
        a: k,
        b: k,
        c: k,
        d: k,
    }
}

// The four words of the schedule after x.
fn next(t: &SubBytes, x: Columns, rcon: u32) -> Columns
    ensures { NextKey x rcon result }
{
    let a = x.a ^ rounds::substituted(&t.entries, alike(columns::turn::<3>(x.d)), rcon);
    let b = x.b ^ a;
    let c = x.c ^ b;
    Columns {
        a,
        b,
        c,
        d: x.d ^ c,
    }
}

// Lays four words down as words 4 r to 4 r + 3.
fn put(w: &mut [u32; 44], r: usize, x: Columns)
    requires { r ≤ 10 }
    ensures { w.new ≡ four_set w.old (r * 4) x.a x.b x.c x.d }
{
    let k = r * 4;
    w[k] = x.a;
    w[k + 1] = x.b;
    w[k + 2] = x.c;
    w[k + 3] = x.d;
}

// KeyExpansion: the 44 words of a key.
pub fn expand(key: &[u8; 16]) -> [u32; 44]
    ensures { result ≡ key_expansion key.now }
{
    let t = tables::sbox();
    let constants = RCON;
    let mut w = [0u32; 44];
    let mut x = Columns::from(key);
    put(&mut w, 0, x);
    for r in 0..10 {
        x = next(&t, x, constants[r]);
        put(&mut w, r + 1, x);
    }
    w
}

// InvMixColumns of a word, through the S-box s and the table t.
fn unmixed(s: &SubBytes, t: &InvMixColumns, k: u32) -> u32
    ensures { Unmixed k result }
{
    let x = rounds::substituted(&s.entries, alike(k), 0);
    rounds::shared(&t.entries, alike(x), 0)
}

// What the inverse cipher takes for round key r of the schedule w, through the S-box s and the table t.
fn inverse_key(s: &SubBytes, t: &InvMixColumns, w: &[u32; 44], r: usize) -> Columns
    requires { r ≤ 10 }
    ensures { InverseKey w.now r result }
{
    let k = columns::flip(rounds::round_key(w, r));
    if r == 0 || r == 10 {
        return k;
    }
    Columns {
        a: unmixed(s, t, k.a),
        b: unmixed(s, t, k.b),
        c: unmixed(s, t, k.c),
        d: unmixed(s, t, k.d),
    }
}

// The keys of the inverse cipher, in the order of their use.
pub fn invert(w: &[u32; 44]) -> [u32; 44]
    ensures { InverseKeys 11 w.now result }
{
    let s = tables::sbox();
    let t = tables::unmixed();
    let mut v = [0u32; 44];
    for r in 0..11 {
        put(&mut v, r, inverse_key(&s, &t, w, 10 - r));
    }
    v
}
