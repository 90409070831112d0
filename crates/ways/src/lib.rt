// All rounds of the cipher, or of its inverse, on columns.
#![tactic(auto)]

ghost use Rattle.rounds.specs.Ways.{Through};
ghost use Rattle.columns.specs.Words.{block_of};

use columns::Columns;

// The way that the tables are for: t has the shares, and the last byte of each entry of u is the byte substituted.
pub fn through(t: &[u32; 256], u: &[u32; 256], w: &[u32; 44], block: Columns) -> Columns
    ensures { Through t.now u.now w.now (block_of block) (block_of result) }
{
    let mut x = rounds::add_round_key(block, w, 0);
    for r in 1..10 {
        x = rounds::full(t, x, w, r);
    }
    rounds::last(u, x, w)
}
