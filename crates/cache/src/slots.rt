// One slot: evicted, filled, made ready.
ghost use Rattle.std.specs.Prelude.{◌≡◌, Bool, true, [], ◌∷◌, ℕ, ◌*◌, ◌<◌, ◌≤◌, ◌/◌, ◌^◌, length};
ghost use Rattle.lists.specs.Bytes.{zeros};
ghost use Rattle.lists.specs.If.{if};
ghost use Rattle.model.specs.Tags.{is_data, is_checked};
ghost use Rattle.model.specs.Lines.{put_line};
ghost use Rattle.model.specs.Log.{Note, plus, no_counts, counts_of};
ghost use Rattle.model.specs.Cached.{evict_place, fill_place, then_do};
ghost use Rattle.directory.specs.Direct.{direct};
ghost use Rattle.directory.specs.TagIn.{tag_in};
ghost use Rattle.ciphers.specs.Cipher.{aes_cipher};
ghost use Rattle.cache.specs.Lent.{counts_in, Fit};
ghost use Rattle.cache.specs.Held.{SameBuffers, memory_in};
ghost use Rattle.cache.specs.Does.{Does};

use crate::buffers::Buffers;
use crate::parts;
use directory::tag::Tag;
use directory::{number, place};
use sealing::Drk;

// Lines filled, dirty lines written, MACs checked, MACs made for lines.
#[repr(C)]
#[derive(Clone, Copy, Debug, PartialEq, Eq)]
pub struct Counts {
    pub filled: u64,
    pub written: u64,
    pub checked: u64,
    pub made: u64,
}

// Whether a line is there, and what making it ready counted.
//
// Kept: a flag beside a value, and no Option or Result, since the counts are there in both cases.
#[derive(Clone, Copy, Debug, PartialEq, Eq)]
pub struct Ready {
    pub ok: bool,
    pub counts: Counts,
}

// Nothing was counted.
#[tactic(auto, unfolding(model::specs::Log::no_counts))]
pub fn none() -> Counts
    ensures { counts_in result ≡ no_counts }
{
    Counts {
        filled: 0,
        written: 0,
        checked: 0,
        made: 0,
    }
}

// Two counts together.
#[tactic(auto, unfolding(model::specs::Log::plus))]
pub fn add(a: Counts, b: Counts) -> Counts
    requires filled_bound { (a.filled ≤ 2 ^ 62) × (a.written ≤ 2 ^ 62) × (a.checked ≤ 2 ^ 62)
        × (a.made ≤ 2 ^ 62) }
    requires filled_bound_2 { (b.filled ≤ 2 ^ 62) × (b.written ≤ 2 ^ 62) × (b.checked ≤ 2 ^ 62)
        × (b.made ≤ 2 ^ 62) }
    ensures { counts_in result ≡ plus (counts_in a) (counts_in b) }
{
    Counts {
        filled: a.filled + b.filled,
        written: a.written + b.written,
        checked: a.checked + b.checked,
        made: a.made + b.made,
    }
}

// What writing back a line of the tag counts: a sealed line's MAC is made.
fn written(tag: Tag) -> Counts
    ensures { (n : ℕ) → counts_in result ≡ counts_of (Note.evicted (tag_in tag) n true ∷ []) }
{
    let made = if tag.is_data() { 1 } else { 0 };
    Counts {
        filled: 0,
        written: 1,
        checked: 0,
        made,
    }
}

// What filling a line under the tag counts, whether or not its check passed: a protected line is checked.
fn filled(tag: Tag) -> Counts
    ensures { (n : ℕ) (ok : Bool)
        → counts_in result ≡ counts_of (Note.filled (tag_in tag) n ok ∷ []) }
{
    let checked = if tag.is_checked() { 1 } else { 0 };
    Counts {
        filled: 1,
        written: 0,
        checked,
        made: 0,
    }
}

impl Buffers<'_> {
    // A slot is emptied: number 0 and 64 zero bytes.
    pub fn empty(&mut self, slot: usize)
        requires cache_len { length self.old.cache.now ≡ length self.old.dir.now * 64 }
        requires slot_in_bounds { slot < length self.old.dir.now }
        ensures same { SameBuffers self.old self.new }
        ensures lines { (self.new.mem.now ≡ self.old.mem.now) × (self.new.macs.now ≡ self.old.macs.now) }
        ensures emptied { (self.new.cache.now ≡ put_line slot (zeros 64) self.old.cache.now)
            × (self.new.dir.now ≡ direct.clear self.old.dir.now slot) }
    {
        parts::wipe(self.cache, slot);
        place::clear(self.dir, slot);
    }

    // A slot is evicted: a dirty line is written back, sealed and signed where it is Secure Data.
    pub fn evict(&mut self, drk: Drk, slot: usize) -> Counts
        requires fit { Fit (memory_in drk self.old) }
        requires slot_in_bounds { slot < length self.old.dir.now }
        ensures same { SameBuffers self.old self.new }
        ensures does { Does (evict_place aes_cipher direct slot (memory_in drk self.old)) true
            (counts_in result) (memory_in drk self.new) }
    {
        let d = self.dir[slot];
        if !number::used(d) {
            return none();
        }
        if !number::dirty(d) {
            self.empty(slot);
            return none();
        }
        let tag = number::tag(d);
        let n = number::line(d) as usize;
        parts::write_back(drk, self.mem, self.macs, self.cache, tag, n, slot);
        self.empty(slot);
        written(tag)
    }

    // Line n is filled into a slot under the tag: clean where its check passes, and otherwise the slot stays empty.
    fn fill(&mut self, drk: Drk, tag: Tag, n: usize, slot: usize) -> Ready
        requires fit { Fit (memory_in drk self.old) }
        requires slot_in_bounds { (slot < length self.old.dir.now) × (n < length self.old.mem.now / 64) }
        ensures same { SameBuffers self.old self.new }
        ensures does { Does (fill_place aes_cipher direct (tag_in tag) n slot (memory_in drk self.old))
            result.ok (counts_in result.counts) (memory_in drk self.new) }
    {
        let counts = filled(tag);
        let mem = &mut *self.mem;
        let macs = &mut *self.macs;
        if parts::right(drk, mem, macs, tag, n) {
            let cache = &mut *self.cache;
            parts::bring(drk, mem, cache, tag, n, slot);
            place::put(self.dir, slot, n, tag, false);
            place::touch(self.dir, slot);
            return Ready { ok: true, counts };
        }
        self.empty(slot);
        Ready { ok: false, counts }
    }

    // Line n is made ready in a slot that does not serve it: the occupant is evicted, then the line is filled.
    pub fn replace(&mut self, drk: Drk, tag: Tag, n: usize, slot: usize) -> Ready
        requires fit { Fit (memory_in drk self.old) }
        requires slot_in_bounds { (slot < length self.old.dir.now) × (n < length self.old.mem.now / 64) }
        ensures same { SameBuffers self.old self.new }
        ensures does { Does (then_do (evict_place aes_cipher direct slot (memory_in drk self.old))
            (fill_place aes_cipher direct (tag_in tag) n slot)) result.ok (counts_in result.counts)
            (memory_in drk self.new) }
    {
        let k = self.evict(drk, slot);
        let f = self.fill(drk, tag, n, slot);
        Ready {
            ok: f.ok,
            counts: add(k, f.counts),
        }
    }
}
