// Words in lent bytes, the lowest byte first.
#![tactic(auto)]

ghost use Rattle.std.specs.Prelude.{◌≡◌, ◌+◌, ◌<◌, ◌≤◌, length};
ghost use Rattle.lists.specs.Parts.{part_at, put_at};
ghost use Rattle.lists.specs.Words.{little, little_bytes};

// The word of four bytes from a place on.
pub fn read_four(s: &[u8], at: usize) -> u64
    requires { at + 4 ≤ length s.now }
    ensures { (result ≡ little (part_at at 4 s.now)) × (result < 4294967296) }
{
    u32::from_le_bytes([s[at], s[at + 1], s[at + 2], s[at + 3]]) as u64
}

// The word of eight bytes from a place on.
// Kept: beside `read_four`, each one call of std; one for both would need a trait over the widths, and is no plainer.
pub fn read_eight(s: &[u8], at: usize) -> u64
    requires { at + 8 ≤ length s.now }
    ensures { result ≡ little (part_at at 8 s.now) }
{
    u64::from_le_bytes([
        s[at],
        s[at + 1],
        s[at + 2],
        s[at + 3],
        s[at + 4],
        s[at + 5],
        s[at + 6],
        s[at + 7],
    ])
}

// A word put over the eight bytes from a place on.
pub fn write_eight(s: &mut [u8], at: usize, v: u64)
    requires { at + 8 ≤ length s.old }
    ensures { s.new ≡ put_at at 8 (little_bytes 8 v) s.old }
{
    s[at..at + 8].copy_from_slice(&v.to_le_bytes());
}
