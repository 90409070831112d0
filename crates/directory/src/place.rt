// The direct-mapped placement on a lent directory: the slot of a line, and a slot emptied, filled or used.
#![tactic(auto, unfolding(crate::specs::Direct::direct))]

ghost use Rattle.std.specs.Prelude.{◌≡◌, ◌<◌, ◌≤◌, length};
ghost use Rattle.model.specs.Placement.{holding};
ghost use Rattle.directory.specs.Direct.{direct};
ghost use Rattle.directory.specs.TagIn.{tag_in};

use crate::number;
use crate::tag::Tag;

// The slot for line n: where it is held, or where it would be filled.
pub fn choose(dir: &[u32], n: usize) -> usize
    requires { 0 < length dir.now }
    ensures { result ≡ direct.choose dir.now n }
{
    n % dir.len()
}

// A slot is emptied.
pub fn clear(dir: &mut [u32], p: usize)
    requires { p < length dir.old }
    ensures { dir.new ≡ direct.clear dir.old p }
{
    dir[p] = 0;
}

// A slot gets line n under the tag, clean or dirty.
pub fn put(dir: &mut [u32], p: usize, n: usize, tag: Tag, dirty: bool)
    requires { (p < length dir.old) × (n ≤ 1024) }
    ensures { dir.new ≡ direct.put dir.old p (holding n (tag_in tag) dirty) }
{
    dir[p] = number::holding(dir[p], n, tag, dirty);
}

// A slot was used, by a hit or by a fill that did not fail: here nothing is kept of that.
pub fn touch(dir: &mut [u32], p: usize)
    requires { p < length dir.old }
    ensures { dir.new ≡ direct.touch dir.old p }
{}
