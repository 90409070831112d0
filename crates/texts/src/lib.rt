// Numbers as bytes, high byte first, and the text of which a line's MAC is made.
#![tactic(auto)]

ghost use Rattle.std.specs.Prelude.{◌≡◌, ◌∷◌, ◌++◌, ◌+◌, ◌≤◌, length};
ghost use Rattle.lists.specs.Parts.{part_at};
ghost use Rattle.lists.specs.Words.{big, big_bytes};

// The sixteen bytes of two words, the first one high.
pub fn pair(hi: u64, lo: u64) -> [u8; 16]
    ensures { result ≡ big_bytes 8 hi ++ big_bytes 8 lo }
{
    let mut bytes = [0u8; 16];
    bytes[..8].copy_from_slice(&hi.to_be_bytes());
    bytes[8..].copy_from_slice(&lo.to_be_bytes());
    bytes
}

// Lays down what is signed of a line: a byte, the address and the bytes.
// Kept: `out` is lent, since an array as the result would ask of its callers that the length be a constant.
pub fn signed_text(prefix: u8, address: u64, bytes: &[u8], out: &mut [u8])
    requires { length out.old ≡ 9 + length bytes.now }
    ensures { out.new ≡ prefix ∷ (big_bytes 8 address ++ bytes.now) }
{
    out[0] = prefix;
    out[1..9].copy_from_slice(&address.to_be_bytes());
    out[9..].copy_from_slice(bytes);
}

// The word of eight bytes, high first, from place k on.
pub fn word_at(s: &[u8], k: usize) -> u64
    requires { k + 8 ≤ length s.now }
    ensures { result ≡ big (part_at k 8 s.now) }
{
    let mut bytes = [0u8; 8];
    bytes.copy_from_slice(&s[k..k + 8]);
    u64::from_be_bytes(bytes)
}
