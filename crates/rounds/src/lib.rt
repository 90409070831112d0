// The rounds of the cipher on columns, through tables that the caller lends; the inverse cipher takes the same rounds
// by tables of its own.
#![tactic(auto)]

ghost use Rattle.std.specs.Prelude.{◌≡◌, ◌≤◌};
ghost use Rattle.field.specs.Field.{◌⊕◌};
ghost use Rattle.aes_standard.specs.State.{add_round_key};
ghost use Rattle.rounds.specs.Ways.{Round, Last};
ghost use Rattle.rounds.specs.Parts.{entries, turned_left, Each};
ghost use Rattle.columns.specs.Words.{RoundKey, block_of, shared_word, substituted_word, lowest_word};

use columns::Columns;

// The entries of a table at the first byte of the first column, the second of the second, and so on.
fn diagonal<T: Copy>(t: &[T; 256], x: Columns) -> [T; 4]
    ensures { (e : T) → result ≡ entries e t.now x.a x.b x.c x.d }
{
    [
        t[x.a.to_be_bytes()[0] as usize],
        t[x.b.to_be_bytes()[1] as usize],
        t[x.c.to_be_bytes()[2] as usize],
        t[x.d.to_be_bytes()[3] as usize],
    ]
}

// Kept: `shared`, `substituted` and `lowest` are three, since one with the step as a closure would be no plainer: they
// differ in the table's type and in how four entries become a word, and what they share is `diagonal`.

// The shares of the bytes of a diagonal in their column, plus a word of a round key.
pub fn shared(t: &[u32; 256], x: Columns, k: u32) -> u32
    ensures { result ≡ shared_word t.now x.a x.b x.c x.d ⊕ k }
{
    let [a, b, c, d] = diagonal(t, x);
    columns::turn::<2>(a) ^ columns::turn::<3>(b) ^ c ^ columns::turn::<1>(d) ^ k
}

// The bytes of a diagonal, each substituted, plus a word of a round key.
pub fn substituted(t: &[u8; 256], x: Columns, k: u32) -> u32
    ensures { result ≡ substituted_word t.now x.a x.b x.c x.d ⊕ k }
{
    let [a, b, c, d] = diagonal(t, x);
    columns::word_of(a, b, c, d) ^ k
}

// The last bytes of the entries of a diagonal, plus a word of a round key.
fn lowest(t: &[u32; 256], x: Columns, k: u32) -> u32
    ensures { result ≡ lowest_word t.now x.a x.b x.c x.d ⊕ k }
{
    let [a, b, c, d] = diagonal(t, x);
    // Kept: each `% 256`, since an `as u8` has to show that its number fits.
    columns::word_of(
        (a % 256) as u8,
        (b % 256) as u8,
        (c % 256) as u8,
        (d % 256) as u8,
    ) ^ k
}

// Kept: r is a number with a bound and not a type of its own, which would be no plainer: each of the six calls would
// wrap its number, as `Round { number: 10 - r }`, for the one line that five contracts spend on it.

// Round key r.
pub fn round_key(w: &[u32; 44], r: usize) -> Columns
    requires { r ≤ 10 }
    ensures { RoundKey w.now r result }
{
    let k = r * 4;
    Columns {
        a: w[k],
        b: w[k + 1],
        c: w[k + 2],
        d: w[k + 3],
    }
}

// AddRoundKey with round key r.
pub fn add_round_key(x: Columns, w: &[u32; 44], r: usize) -> Columns
    requires { r ≤ 10 }
    ensures { block_of result ≡ add_round_key w.now r (block_of x) }
{
    x ^ round_key(w, r)
}

// The columns from the second on, and then the first.
fn onward(x: Columns) -> Columns
    ensures { result ≡ turned_left x }
{
    Columns {
        a: x.b,
        b: x.c,
        c: x.d,
        d: x.a,
    }
}

// The state of which column i is made of the columns of x from i on, counted round, and of word i of k.
fn each<F: Fn(Columns, u32) -> u32>(x: Columns, k: Columns, column: F) -> Columns
    requires { F.IsAlwaysCallable column }
    ensures { Each (F.post column) x k result }
{
    let second = onward(x);
    let third = onward(second);
    let fourth = onward(third);
    Columns {
        a: column(x, k.a),
        b: column(second, k.b),
        c: column(third, k.c),
        d: column(fourth, k.d),
    }
}

// A full round, with round key r.
pub fn full(t: &[u32; 256], x: Columns, w: &[u32; 44], r: usize) -> Columns
    requires { r ≤ 10 }
    ensures { Round t.now w.now r (block_of x) (block_of result) }
{
    each(x, round_key(w, r), |y, k| shared(t, y, k))
}

// The last round.
pub fn last(u: &[u32; 256], x: Columns, w: &[u32; 44]) -> Columns
    ensures { Last u.now w.now (block_of x) (block_of result) }
{
    each(x, round_key(w, 10), |y, k| lowest(u, y, k))
}
