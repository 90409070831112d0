// The ciphers for programs in C: `aes`, `chain`, `cmac` and `sealing` under plain names that begin with hq_, for tests
// and benchmarks beside other ciphers.
// Kept: a DRK in two words, and calls that are alike but for a size: C's interface.
#![tactic(auto)]

ghost use Rattle.std.specs.Prelude.{◌≡◌};
ghost use Rattle.aes_standard.specs.Cipher.{cipher, inv_cipher};
ghost use Rattle.aes_standard.specs.Schedule.{key_expansion};
ghost use Rattle.aes_standard.specs.Chain.{cbc_encrypt, cbc_decrypt};
ghost use Rattle.cmac.specs.Cmac.{cmac};
ghost use Rattle.cmac.specs.Subkeys.{subkey1, subkey2};
ghost use Rattle.sealing.specs.Lines.{drk_of, code_mac, data_mac, enciphered, deciphered};

use sealing::Drk;

// KeyExpansion: the 44 words of a key go to w.
#[unsafe(no_mangle)]
pub extern "C" fn hq_aes_expand(key: &[u8; 16], w: &mut [u32; 44])
    ensures { w.new ≡ key_expansion key.now }
{
    *w = aes::expand(key);
}

// Cipher: a block under the words of a key schedule goes to out.
#[unsafe(no_mangle)]
pub extern "C" fn hq_aes_encipher(w: &[u32; 44], block: &[u8; 16], out: &mut [u8; 16])
    ensures { out.new ≡ cipher w.now block.now }
{
    aes::encipher_to(w, block, out);
}

// InvCipher: a block under a key goes to out.
#[unsafe(no_mangle)]
pub extern "C" fn hq_aes_decipher(key: &[u8; 16], block: &[u8; 16], out: &mut [u8; 16])
    ensures { out.new ≡ inv_cipher (key_expansion key.now) block.now }
{
    *out = aes::decipher(key, block);
}

// CBC encryption of all whole blocks of a buffer, in place, under the words of a key schedule.
#[unsafe(no_mangle)]
pub extern "C" fn hq_cbc_encrypt(w: &[u32; 44], iv: &[u8; 16], bytes: &mut [u8])
    ensures { bytes.new ≡ cbc_encrypt w.now iv.now bytes.old }
{
    chain::encrypt(w, iv, bytes);
}

// CBC decryption of all whole blocks of a buffer, in place, under a key.
#[unsafe(no_mangle)]
pub extern "C" fn hq_cbc_decrypt(key: &[u8; 16], iv: &[u8; 16], bytes: &mut [u8])
    ensures { bytes.new
        ≡ cbc_decrypt (key_expansion key.now) iv.now bytes.old }
{
    chain::decrypt(key, iv, bytes);
}

// CMAC: the MAC of a message under the words of a key schedule goes to out.
#[unsafe(no_mangle)]
pub extern "C" fn hq_cmac(w: &[u32; 44], m: &[u8], out: &mut [u8; 16])
    ensures { out.new ≡ cmac w.now m.now }
{
    *out = cmac::sign(w, m);
}

// K1, CMAC's subkey for a whole last block, goes to out.
#[unsafe(no_mangle)]
pub extern "C" fn hq_cmac_subkey1(w: &[u32; 44], out: &mut [u8; 16])
    ensures { out.new ≡ subkey1 w.now }
{
    *out = cmac::subkey1(w);
}

// K2, CMAC's subkey for a last block that is padded, goes to out.
#[unsafe(no_mangle)]
pub extern "C" fn hq_cmac_subkey2(w: &[u32; 44], out: &mut [u8; 16])
    ensures { out.new ≡ subkey2 w.now }
{
    *out = cmac::subkey2(w);
}

// The MAC of the 48 code bytes of the line at an address goes to out, under a DRK of two words, the high one first.
#[unsafe(no_mangle)]
pub extern "C" fn hq_code_mac(hi: u64, lo: u64, address: u64, code: &[u8; 48], out: &mut [u8; 16])
    ensures { out.new ≡ code_mac (drk_of hi lo) address code.now }
{
    *out = Drk { high: hi, low: lo }.code_mac(address, code);
}

// The MAC of the 64 encrypted bytes of the data line at an address goes to out, under a DRK of two words.
#[unsafe(no_mangle)]
pub extern "C" fn hq_data_mac(hi: u64, lo: u64, address: u64, line: &[u8; 64], out: &mut [u8; 16])
    ensures { out.new ≡ data_mac (drk_of hi lo) address line.now }
{
    *out = Drk { high: hi, low: lo }.data_mac(address, line);
}

// Seals the data line at an address, in place, under a DRK of two words, the high one first.
#[unsafe(no_mangle)]
pub extern "C" fn hq_seal(hi: u64, lo: u64, address: u64, line: &mut [u8])
    ensures { line.new ≡ enciphered (drk_of hi lo) address line.old }
{
    Drk { high: hi, low: lo }.seal(address, line);
}

// Opens the sealed data line at an address, in place, under a DRK of two words, the high one first.
#[unsafe(no_mangle)]
pub extern "C" fn hq_unseal(hi: u64, lo: u64, address: u64, line: &mut [u8])
    ensures { line.new ≡ deciphered (drk_of hi lo) address line.old }
{
    Drk { high: hi, low: lo }.unseal(address, line);
}
