// AES-128 (FIPS 197): a key schedule for many blocks, a block enciphered or deciphered, and whole blocks in a chain.
#![tactic(auto)]

ghost use Rattle.std.specs.Prelude.{◌≡◌};
ghost use Rattle.aes_standard.specs.Cipher.{cipher, inv_cipher};
ghost use Rattle.aes_standard.specs.Schedule.{key_expansion};

use columns::Columns;

// KeyExpansion: the 44 words that encipher under a key.
pub fn expand(key: &[u8; 16]) -> [u32; 44]
    ensures { result ≡ key_expansion key.now }
{
    schedule::expand(key)
}

// Cipher: a block under the words of a key schedule.
pub fn encipher(w: &[u32; 44], block: &[u8; 16]) -> [u8; 16]
    ensures { result ≡ cipher w.now block.now }
{
    let mut out = [0u8; 16];
    encipher_to(w, block, &mut out);
    out
}

// Cipher: a block under the words of a key schedule goes to out.
pub fn encipher_to(w: &[u32; 44], block: &[u8; 16], out: &mut [u8; 16])
    ensures { out.new ≡ cipher w.now block.now }
{
    let t = tables::mixed().entries;
    let x = ways::through(&t, &t, w, Columns::from(block));
    columns::store(x, out, 0);
}

// InvCipher: a block under a key.
pub fn decipher(key: &[u8; 16], block: &[u8; 16]) -> [u8; 16]
    ensures { result ≡ inv_cipher (key_expansion key.now) block.now }
{
    let w = schedule::expand(key);
    let v = schedule::invert(&w);
    let t = tables::unmixed().entries;
    let u = tables::inv_sbox().entries;
    let x = ways::through(&t, &u, &v, columns::flip(Columns::from(block)));
    columns::flip(x).into()
}
