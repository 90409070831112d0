// Protected lines: their MACs and sealed data lines, under a DRK.
#![tactic(auto)]

ghost use Rattle.std.specs.Prelude.{◌≡◌, ◌++◌, ◌+◌, ◌<◌, ◌^◌, length};
ghost use Rattle.lists.specs.Words.{big_bytes};
ghost use Rattle.aes_standard.specs.Cipher.{cipher};
ghost use Rattle.sealing.specs.Lines.{drk_of, drk_in, mac_of, signed_text, line_key, code_mac, data_mac, enciphered, deciphered};

// A DRK: its sixteen bytes as two words.
#[derive(Clone, Copy, Debug, PartialEq, Eq)]
pub struct Drk {
    pub high: u64,
    pub low: u64,
}

impl Drk {
    // The sixteen bytes, the high word first.
    pub fn bytes(self) -> [u8; 16]
        ensures { result ≡ drk_in self }
    {
        texts::pair(self.high, self.low)
    }

    // CMAC of any bytes.
    pub fn mac_of(self, m: &[u8]) -> [u8; 16]
        ensures { result ≡ mac_of (drk_in self) m.now }
    {
        cmac::sign(&aes::expand(&self.bytes()), m)
    }

    // The line key.
    pub fn line_key(self) -> [u8; 16]
        ensures { result ≡ line_key (drk_in self) }
    {
        self.mac_of(&[1])
    }

    // The MAC of the 48 code bytes of the line at an address.
    pub fn code_mac(self, address: u64, code: &[u8]) -> [u8; 16]
        requires { length code.now ≡ 48 }
        ensures { result ≡ code_mac (drk_in self) address code.now }
    {
        self.line_mac::<57>(2, address, code)
    }

    // The MAC of the 64 encrypted bytes of the data line at an address.
    pub fn data_mac(self, address: u64, line: &[u8]) -> [u8; 16]
        requires { length line.now ≡ 64 }
        ensures { result ≡ data_mac (drk_in self) address line.now }
    {
        self.line_mac::<73>(3, address, line)
    }

    // The MAC of a line's bytes, by a text of N bytes: a byte that says what for, the address and the bytes.
    fn line_mac<const N: usize>(self, prefix: u8, address: u64, bytes: &[u8]) -> [u8; 16]
        requires size { N ≡ 9 + length bytes.now }
        requires fits { N < 2 ^ 63 }
        ensures { result ≡ mac_of (drk_in self) (signed_text prefix address bytes.now) }
    {
        let mut text = [0u8; N];
        texts::signed_text(prefix, address, bytes, &mut text);
        self.mac_of(&text)
    }

    // Seals the data line at an address, in place.
    pub fn seal(self, address: u64, line: &mut [u8])
        ensures { line.new ≡ enciphered (drk_in self) address line.old }
    {
        let w = aes::expand(&self.line_key());
        let iv = start_vector(&w, address);
        chain::encrypt(&w, &iv, line);
    }

    // Opens the sealed data line at an address, in place.
    pub fn unseal(self, address: u64, line: &mut [u8])
        ensures { line.new ≡ deciphered (drk_in self) address line.old }
    {
        let key = self.line_key();
        let iv = start_vector(&aes::expand(&key), address);
        chain::decrypt(&key, &iv, line);
    }

    // The MAC of two words, the first one high: what drk.derive makes.
    pub fn derive(self, a: u64, b: u64) -> [u8; 16]
        ensures { result ≡ mac_of (drk_in self) (big_bytes 8 a ++ big_bytes 8 b) }
    {
        self.mac_of(&texts::pair(a, b))
    }
}

// The initialization vector of the line at an address, under the words of its line key.
fn start_vector(w: &[u32; 44], address: u64) -> [u8; 16]
    ensures { result ≡ cipher w.now (drk_of 0 address) }
{
    aes::encipher(w, &texts::pair(0, address))
}
