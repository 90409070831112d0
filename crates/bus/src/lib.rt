// The bus: a line read or written, a MAC entry written; each first evicts that line.
#![tactic(auto)]

ghost use Rattle.std.specs.Prelude.{◌≡◌, [], ◌<◌, ◌/◌, length};
ghost use Rattle.std.proofs.Math.Option.{some};
ghost use Rattle.model.specs.Lines.{line_at, put_line};
ghost use Rattle.model.specs.Requests.{bus_read, bus_write, bus_mac};
ghost use Rattle.cache.specs.Lent.{counts_in, Fit};
ghost use Rattle.cache.specs.Held.{SameBuffers, memory_in};
ghost use Rattle.bus.specs.Handles.{Handles};

use cache::buffers::Buffers;
use cache::slots::Counts;
use sealing::Drk;

// Line n of a memory is copied out.
fn load(mem: &[u8], n: usize, line: &mut [u8])
    requires { (n < length mem.now / 64) × (length line.old ≡ 64) }
    ensures { line.new ≡ line_at n mem.now }
{
    let a = n * 64;
    line.copy_from_slice(&mem[a..a + 64]);
}

// Line n of a memory becomes another.
// Not inlined: where it is, a call over the bus takes a third more, since its answer is first filled with zeros.
#[inline(never)]
fn save(mem: &mut [u8], n: usize, line: &[u8])
    requires { (n < length mem.old / 64) × (length line.now ≡ 64) }
    ensures { mem.new ≡ put_line n line.now mem.old }
{
    let a = n * 64;
    mem[a..a + 64].copy_from_slice(line);
}

// Line n of memory goes to a buffer of 64 bytes.
pub fn read(drk: Drk, buffers: &mut Buffers, n: usize, line: &mut [u8]) -> Counts
    requires fit { Fit (memory_in drk buffers.old) }
    requires n_in_bounds { (n < length buffers.old.mem.now / 64) × (length line.old ≡ 64) }
    ensures same { SameBuffers buffers.old buffers.new }
    ensures handles { Handles (bus_read n) (memory_in drk buffers.old) (some line.new)
        (counts_in result) (memory_in drk buffers.new) }
{
    let k = buffers.drop_line(drk, n);
    let mem = &mut *buffers.mem;
    load(mem, n, line);
    k
}

// A buffer of 64 bytes goes to line n of memory.
// Kept: beside `write_mac`, since one for both would take the area, the size and the request, and is no plainer.
pub fn write(drk: Drk, buffers: &mut Buffers, n: usize, line: &[u8]) -> Counts
    requires fit { Fit (memory_in drk buffers.old) }
    requires n_in_bounds { (n < length buffers.old.mem.now / 64) × (length line.now ≡ 64) }
    ensures same { SameBuffers buffers.old buffers.new }
    ensures handles { Handles (bus_write n line.now) (memory_in drk buffers.old) (some [])
        (counts_in result) (memory_in drk buffers.new) }
{
    let k = buffers.drop_line(drk, n);
    save(buffers.mem, n, line);
    k
}

// A buffer of 16 bytes goes to line n's entry in the MAC area.
pub fn write_mac(drk: Drk, buffers: &mut Buffers, n: usize, mac: &[u8]) -> Counts
    requires fit { Fit (memory_in drk buffers.old) }
    requires n_in_bounds { (n < length buffers.old.mem.now / 64) × (length mac.now ≡ 16) }
    ensures same { SameBuffers buffers.old buffers.new }
    ensures handles { Handles (bus_mac n mac.now) (memory_in drk buffers.old) (some [])
        (counts_in result) (memory_in drk buffers.new) }
{
    let k = buffers.drop_line(drk, n);
    let a = n * 16;
    buffers.macs[a..a + 16].copy_from_slice(mac);
    k
}
