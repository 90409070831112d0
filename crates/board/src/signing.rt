// The depot: lines signed, sealed and opened in their buffers, under a given DRK (two words, high first) and address.
// Kept: a DRK in two words, and a refusal as a number, 0 for none: C's interface.
ghost use Rattle.std.specs.Prelude.{◌≡◌, []};
ghost use Rattle.instructions.specs.Depot.{depot_sign, depot_seal, depot_open};
ghost use Rattle.sealing.specs.Lines.{drk_of};
ghost use Rattle.ciphers.specs.Cipher.{aes_cipher};
ghost use Rattle.depot.specs.Answer.{gave};

use answers::refusals;
use sealing::Drk;

// Signs a code line: the MAC of its first 48 bytes goes into its last 16.
#[unsafe(no_mangle)]
pub extern "C" fn hq_depot_sign(hi: u64, lo: u64, address: u64, line: &mut [u8]) -> u32
    ensures { gave result line.new [] ≡ depot_sign aes_cipher (drk_of hi lo) address line.old }
{
    refusals::number_of(depot::sign(Drk { high: hi, low: lo }, address, line))
}

// Seals a data line, and puts the MAC of its encrypted bytes into mac.
#[unsafe(no_mangle)]
pub extern "C" fn hq_depot_seal(
    hi: u64,
    lo: u64,
    address: u64,
    line: &mut [u8],
    mac: &mut [u8],
) -> u32
    ensures { gave result line.new mac.new
        ≡ depot_seal aes_cipher (drk_of hi lo) address line.old mac.old }
{
    refusals::number_of(depot::seal(Drk { high: hi, low: lo }, address, line, mac))
}

// Opens a sealed data line whose MAC is right.
#[unsafe(no_mangle)]
pub extern "C" fn hq_depot_open(hi: u64, lo: u64, address: u64, line: &mut [u8], mac: &[u8]) -> u32
    ensures { gave result line.new mac.now
        ≡ depot_open aes_cipher (drk_of hi lo) address line.old mac.now }
{
    refusals::number_of(depot::open_line(Drk { high: hi, low: lo }, address, line, mac))
}
