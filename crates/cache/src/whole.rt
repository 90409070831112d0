// A line dropped, and every slot evicted or lost.
ghost use Rattle.std.specs.Prelude.{◌≡◌, true, ◌*◌, ◌<◌, ◌/◌, length};
ghost use Rattle.model.specs.Cached.{evict_line, evict_all};
ghost use Rattle.directory.specs.Direct.{direct};
ghost use Rattle.ciphers.specs.Cipher.{aes_cipher};
ghost use Rattle.cache.specs.Lent.{counts_in, Fit};
ghost use Rattle.cache.specs.Held.{SameBuffers, memory_in};
ghost use Rattle.cache.specs.Does.{Does, Loses, LosesAll};

use crate::buffers::Buffers;
use crate::slots;
use crate::slots::Counts;
use directory::{number, place};
use sealing::Drk;

impl Buffers<'_> {
    // Line n is evicted where its slot holds it.
    pub fn drop_line(&mut self, drk: Drk, n: usize) -> Counts
        requires fit { Fit (memory_in drk self.old) }
        requires n_in_bounds { n < length self.old.mem.now / 64 }
        ensures same { SameBuffers self.old self.new }
        ensures does { Does (evict_line aes_cipher direct n (memory_in drk self.old)) true
            (counts_in result) (memory_in drk self.new) }
    {
        let dir = &mut *self.dir;
        let slot = place::choose(dir, n);
        if !number::holds(dir[slot], n) {
            return slots::none();
        }
        self.evict(drk, slot)
    }

    // Every slot is evicted.
    pub fn evict_all(&mut self, drk: Drk) -> Counts
        requires { Fit (memory_in drk self.old) }
        ensures same { SameBuffers self.old self.new }
        ensures does { Does (evict_all aes_cipher direct (memory_in drk self.old)) true
            (counts_in result) (memory_in drk self.new) }
    {
        let mut k = slots::none();
        for slot in 0..self.dir.len() {
            k = slots::add(k, self.evict(drk, slot));
        }
        k
    }

    // A slot is lost: emptied without writing back.
    fn lose(&mut self, slot: usize)
        requires cache_len { length self.old.cache.now ≡ length self.old.dir.now * 64 }
        requires slot_in_bounds { slot < length self.old.dir.now }
        ensures same { SameBuffers self.old self.new }
        ensures lines { (self.new.mem.now ≡ self.old.mem.now) × (self.new.macs.now ≡ self.old.macs.now) }
        ensures loses { Loses slot self.old.cache.now self.old.dir.now self.new.cache.now
            self.new.dir.now }
    {
        if number::used(self.dir[slot]) {
            self.empty(slot);
        }
    }

    // Every slot is lost.
    pub fn lose_all(&mut self)
        requires { length self.old.cache.now ≡ length self.old.dir.now * 64 }
        ensures same { SameBuffers self.old self.new }
        ensures lines { (self.new.mem.now ≡ self.old.mem.now) × (self.new.macs.now ≡ self.old.macs.now) }
        ensures loses { LosesAll self.old.cache.now self.old.dir.now self.new.cache.now
            self.new.dir.now }
    {
        for slot in 0..self.dir.len() {
            self.lose(slot);
        }
    }
}
