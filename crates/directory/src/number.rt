// A directory number: its fields, what it says of a line, and how it is made.
// Kept: a number is a bare word, as C lends the directory; a type of its own would be put on and taken off at each look,
// and is no plainer.
#![tactic(auto, unfolding(crate::specs::Numbers::entry_of, crate::specs::Numbers::used_of, crate::specs::Numbers::tag_of, crate::specs::Numbers::dirty_of, crate::specs::Numbers::line_of, model::specs::Cached::holds))]

ghost use Rattle.std.specs.Prelude.{◌≡◌, true, ◌<◌, ◌≤◌};
ghost use Rattle.model.specs.Placement.{holding};
ghost use Rattle.model.specs.Cached.{serves, holds};
ghost use Rattle.directory.specs.Numbers.{entry_of, number_of, is_number};
ghost use Rattle.directory.specs.Direct.{fine};
ghost use Rattle.directory.specs.TagIn.{tag_in};

use crate::tag::Tag;

// Is the slot used?
pub fn used(d: u32) -> bool
    ensures { result ≡ (entry_of d).used }
{
    d % 2 == 1
}

// The tag; there is no tag 3.
pub fn tag(d: u32) -> Tag
    ensures { tag_in result ≡ (entry_of d).tag }
{
    match d / 2 % 4 {
        1 => Tag::SecureInstruction,
        2 => Tag::SecureData,
        _ => Tag::Ordinary,
    }
}

// Is the line dirty?
pub fn dirty(d: u32) -> bool
    ensures { result ≡ (entry_of d).dirty }
{
    d / 8 % 2 == 1
}

// The line.
pub fn line(d: u32) -> u32
    ensures { result ≡ (entry_of d).line }
{
    d / 16 % 1024
}

// Does the number hold line n, under whatever tag?
pub fn holds(d: u32, n: usize) -> bool
    ensures { result ≡ holds (entry_of d) n }
{
    used(d) && line(d) as usize == n
}

// Does the number serve an access to line n under the tag?
pub fn serves(d: u32, tag: Tag, n: usize) -> bool
    requires { is_number d ≡ true }
    ensures { result ≡ serves (entry_of d) (tag_in tag) n }
{
    d % 8 == 1 + 2 * tag.number() && line(d) as usize == n
}

// The number for line n under the tag, clean or dirty, in a slot that had another.
pub fn holding(old: u32, n: usize, tag: Tag, dirty: bool) -> u32
    requires { n ≤ 1024 }
    ensures { result ≡ number_of (holding n (tag_in tag) dirty) }
{
    let bare = 1 + 2 * tag.number() + 16 * (n as u32);
    if dirty {
        return bare + 8;
    }
    bare
}

// Is the number right in a place of so many slots, for a memory of so many lines? A used one has its line in memory and
// in its own slot, and a tag that there is; 11 is a dirty line under tag 1.
#[tactic(auto, using(crate::proofs::NumberLaws::fine_tests, std::proofs::lemmas::Bool::Decides::nat_tests))]
pub fn fine(d: u32, lines: u32, slots: u32, place: u32) -> bool
    requires { (0 < slots) × (lines ≤ 1024) }
    ensures { result ≡ fine lines slots place d }
{
    let line = d / 16;
    d == 0 || line < lines && line % slots == place && d % 2 == 1 && d / 2 % 4 != 3 && d % 16 != 11
}
