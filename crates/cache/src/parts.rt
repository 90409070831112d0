// Lines and MAC entries as parts of their buffers: copied, sealed, opened, signed and checked.
ghost use Rattle.std.specs.Prelude.{◌≡◌, ◌+◌, ◌*◌, ◌≤◌, length};
ghost use Rattle.lists.specs.Bytes.{zeros};
ghost use Rattle.model.specs.Tags.{secure_instruction, secure_data};
ghost use Rattle.model.specs.Lines.{line_at, put_line, mac_at, put_mac, passes, seen};
ghost use Rattle.sealing.specs.Lines.{drk_in, enciphered, deciphered, data_mac};
ghost use Rattle.directory.specs.TagIn.{tag_in};
ghost use Rattle.ciphers.specs.Cipher.{aes_cipher};
ghost use Rattle.cache.specs.Does.{WrittenBack};

use directory::tag::Tag;
use sealing::Drk;

// Slot or line i becomes 64 zero bytes.
pub fn wipe(to: &mut [u8], i: usize)
    requires { i * 64 + 64 ≤ length to.old }
    ensures { to.new ≡ put_line i (zeros 64) to.old }
{
    let a = i * 64;
    to[a..a + 64].fill(0);
}

// Line i of one buffer becomes line j of another.
fn copy_line(to: &mut [u8], i: usize, from: &[u8], j: usize)
    requires i_in_bounds { i * 64 + 64 ≤ length to.old }
    requires j_in_bounds { j * 64 + 64 ≤ length from.now }
    ensures { to.new ≡ put_line i (line_at j from.now) to.old }
{
    let a = i * 64;
    let b = j * 64;
    to[a..a + 64].copy_from_slice(&from[b..b + 64]);
}

// Does line n pass the check of a tag? The MAC of a code line stands at its end, after its 48 code bytes, and that of a
// data line in the MAC area.
pub fn right(drk: Drk, mem: &[u8], macs: &[u8], tag: Tag, n: usize) -> bool
    requires n_in_bounds { n * 64 + 64 ≤ length mem.now }
    requires n_in_bounds_2 { n * 16 + 16 ≤ length macs.now }
    requires n_bound { n ≤ 1024 }
    ensures { result ≡ passes aes_cipher (tag_in tag) (drk_in drk) n (line_at n mem.now)
        (mac_at n macs.now) }
{
    let a = n * 64;
    let b = n * 16;
    match tag {
        Tag::Ordinary => true,
        Tag::SecureInstruction => drk.code_mac(a as u64, &mem[a..a + 48]).as_slice()
            == &mem[a + 48..a + 64],
        Tag::SecureData => drk.data_mac(a as u64, &mem[a..a + 64]).as_slice() == &macs[b..b + 16],
    }
}

// A slot gets line n as the tag sees it.
pub fn bring(drk: Drk, mem: &[u8], cache: &mut [u8], tag: Tag, n: usize, slot: usize)
    requires n_in_bounds { n * 64 + 64 ≤ length mem.now }
    requires slot_in_bounds { slot * 64 + 64 ≤ length cache.old }
    requires n_bound { n ≤ 1024 }
    ensures { cache.new ≡ put_line slot
        (seen aes_cipher (tag_in tag) (drk_in drk) n (line_at n mem.now)) cache.old }
{
    copy_line(cache, slot, mem, n);
    if tag.is_data() {
        let a = slot * 64;
        drk.unseal(n as u64 * 64, &mut cache[a..a + 64]);
    }
}

// A slot's line goes home to line n: sealed and signed where its tag is Secure Data.
pub fn write_back(
    drk: Drk,
    mem: &mut [u8],
    macs: &mut [u8],
    cache: &mut [u8],
    tag: Tag,
    n: usize,
    slot: usize,
)
    requires n_in_bounds { n * 64 + 64 ≤ length mem.old }
    requires n_in_bounds_2 { n * 16 + 16 ≤ length macs.old }
    requires slot_in_bounds { slot * 64 + 64 ≤ length cache.old }
    requires n_bound { n ≤ 1024 }
    ensures { WrittenBack (tag_in tag) (drk_in drk) n slot mem.old macs.old
        cache.old mem.new macs.new cache.new }
{
    if tag.is_data() {
        let a = slot * 64;
        let b = n * 16;
        drk.seal(n as u64 * 64, &mut cache[a..a + 64]);
        macs[b..b + 16].copy_from_slice(&drk.data_mac(n as u64 * 64, &cache[a..a + 64]));
    }
    copy_line(mem, n, cache, slot);
}
