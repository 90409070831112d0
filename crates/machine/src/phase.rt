// The two memory phases of a step: the fetch, and the data access.
ghost use Rattle.std.specs.Prelude.{◌≡◌, ◌+◌, ◌*◌, ◌/◌, ◌<◌, ◌≤◌, length, eqb};
ghost use Rattle.lists.specs.If.{if};
ghost use Rattle.model.specs.Tags.{no_tag, secure_instruction};
ghost use Rattle.model.specs.Cached.{ready_place};
ghost use Rattle.directory.specs.Direct.{direct};
ghost use Rattle.directory.specs.TagIn.{tag_in};
ghost use Rattle.ciphers.specs.Cipher.{aes_cipher};
ghost use Rattle.answers.specs.Numbers.{fault_in};
ghost use Rattle.cache.specs.Lent.{counts_in, Fit};
ghost use Rattle.cache.specs.Held.{SameBuffers, memory_in};
ghost use Rattle.cache.specs.Does.{Does};
ghost use Rattle.machine.specs.Grants.{Inside, Touches, fetch_of};
ghost use Rattle.machine.specs.Found.{Finds, FindsIn, Reaches};
ghost use Rattle.registers.specs.Wanted.{wish_in};

use answers::faults::Fault;
use cache::buffers::Buffers;
use cache::slots;
use cache::slots::{Counts, Ready};
use directory::tag::Tag;
use directory::{number, place};
use registers::decide::Wish;
use sealing::Drk;

// What came of it: the number that stood there, none where the line's check failed, and what was counted.
#[derive(Clone, Copy, Debug, PartialEq, Eq)]
pub struct Found {
    pub number: Option<u64>,
    pub counts: Counts,
}

// The tag of a fetch: Secure Instruction in active mode.
//
// Kept: the mode is a number, since C's record has it so.
fn code_tag(mode: u8) -> Tag
    ensures { tag_in result ≡ if (eqb mode 1) secure_instruction no_tag }
{
    if mode == 1 {
        return Tag::SecureInstruction;
    }
    Tag::Ordinary
}

// A line is made ready in its slot: a hit, or the slow way. PHASE is 0 of a code line and 1 of a data line: each of the
// two has one caller, so that a hit stays in the step.
fn ready<const PHASE: u8>(drk: Drk, buffers: &mut Buffers, tag: Tag, n: usize, slot: usize) -> Ready
    requires fit { Fit (memory_in drk buffers.old) }
    requires slot_in_bounds { (slot < length buffers.old.dir.now) × (n < length buffers.old.mem.now / 64) }
    ensures same { SameBuffers buffers.old buffers.new }
    ensures does { Does (ready_place aes_cipher direct (tag_in tag) n slot (memory_in drk buffers.old))
        result.ok (counts_in result.counts) (memory_in drk buffers.new) }
{
    if number::serves(buffers.dir[slot], tag, n) {
        place::touch(buffers.dir, slot);
        return Ready {
            ok: true,
            counts: slots::none(),
        };
    }
    buffers.replace(drk, tag, n, slot)
}

// The instruction word at pc, unless the fetch faulted.
pub fn fetch(drk: Drk, buffers: &mut Buffers, fault: Option<Fault>, mode: u8, pc: u64) -> Found
    requires fit { Fit (memory_in drk buffers.old) }
    requires inside { fault_in fault ≡ 0 → Inside pc 4 (length buffers.old.mem.now) }
    ensures same { SameBuffers buffers.old buffers.new }
    ensures finds { Finds (fetch_of (fault_in fault) mode pc) (memory_in drk buffers.old) result
        (memory_in drk buffers.new) }
{
    if fault.is_some() {
        return Found {
            number: Some(0),
            counts: slots::none(),
        };
    }
    let n = (pc / 64) as usize;
    let dir = &mut *buffers.dir;
    let slot = place::choose(dir, n);
    let r = ready::<0>(drk, buffers, code_tag(mode), n, slot);
    let number = if r.ok {
        let cache = &mut *buffers.cache;
        Some(words::read_four(cache, slot * 64 + (pc % 64) as usize))
    } else {
        None
    };
    Found {
        number,
        counts: r.counts,
    }
}

// The word at a place of a slot is read and, where one is given, another is written: the slot is then dirty.
fn touch(
    cache: &mut [u8],
    dir: &mut [u32],
    slot: usize,
    at: usize,
    tag: Tag,
    n: usize,
    store: Option<u64>,
) -> u64
    requires { (slot < length dir.old) × (length cache.old ≡ length dir.old * 64) × (at + 8 ≤ 64)
        × (n ≤ 1024) }
    ensures { Touches slot at (tag_in tag) n store result cache.old dir.old cache.new dir.new }
{
    let i = slot * 64 + at;
    let x = words::read_eight(cache, i);
    if let Some(v) = store {
        words::write_eight(cache, i, v);
        place::put(dir, slot, n, tag, true);
    }
    x
}

// The word at an address under a tag; where one is given, another is written there.
fn word(drk: Drk, buffers: &mut Buffers, tag: Tag, address: u64, store: Option<u64>) -> Found
    requires fit { Fit (memory_in drk buffers.old) }
    requires inside { Inside address 8 (length buffers.old.mem.now) }
    ensures same { SameBuffers buffers.old buffers.new }
    ensures finds { FindsIn (wish_in (Wish.Word tag address store)) (memory_in drk buffers.old) result
        buffers.new }
{
    let n = (address / 64) as usize;
    let dir = &mut *buffers.dir;
    let slot = place::choose(dir, n);
    let r = ready::<1>(drk, buffers, tag, n, slot);
    let number = if r.ok {
        let at = (address % 64) as usize;
        Some(touch(buffers.cache, buffers.dir, slot, at, tag, n, store))
    } else {
        None
    };
    Found {
        number,
        counts: r.counts,
    }
}

// What a step wishes of the memory is done.
pub fn access(drk: Drk, buffers: &mut Buffers, wish: Wish) -> Found
    requires fit { Fit (memory_in drk buffers.old) }
    requires inside { Reaches wish (length buffers.old.mem.now) }
    ensures same { SameBuffers buffers.old buffers.new }
    ensures finds { FindsIn (wish_in wish) (memory_in drk buffers.old) result buffers.new }
{
    match wish {
        Wish::Nothing => Found {
            number: Some(0),
            counts: slots::none(),
        },
        Wish::Word {
            tag,
            address,
            store,
        } => word(drk, buffers, tag, address, store),
        Wish::NewKey(_) => Found {
            number: Some(0),
            counts: buffers.evict_all(drk),
        },
    }
}
