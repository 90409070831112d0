// The depot's calls: a code line is signed, a data line sealed or opened, in its buffer, under a given DRK and address.
//
// Each refuses by the lowest refusal that applies, 106, 107 or 109 as document 01 numbers them; a refusal writes
// nothing.
#![tactic(auto)]

ghost use Rattle.std.specs.Prelude.{◌≡◌, []};
ghost use Rattle.sealing.specs.Lines.{drk_in};
ghost use Rattle.ciphers.specs.Cipher.{aes_cipher};
ghost use Rattle.instructions.specs.Depot.{depot_sign, depot_seal, depot_open};
ghost use Rattle.answers.specs.Numbers.{refusal_in};
ghost use Rattle.depot.specs.Answer.{gave};

use answers::refusals::Refusal;
use sealing::Drk;

// Signs a code line: the MAC of its first 48 bytes goes into its last 16.
#[tactic(auto, using(std::proofs::lemmas::Bool::Decides::nat_tests), unfolding(instructions::specs::Depot::depot_sign, instructions::specs::Refusals::buffer_flaws))]
pub fn sign(drk: Drk, address: u64, line: &mut [u8]) -> Result<(), Refusal>
    ensures { gave (refusal_in result) line.new [] ≡ depot_sign aes_cipher (drk_in drk) address line.old }
{
    if address % 64 != 0 {
        return Err(Refusal::NoSuchLine);
    }
    if line.len() != 64 {
        return Err(Refusal::BufferSize);
    }
    let mac = drk.code_mac(address, &line[..48]);
    line[48..].copy_from_slice(&mac);
    Ok(())
}

// Seals a data line, and puts the MAC of its encrypted bytes into mac.
#[tactic(auto, using(std::proofs::lemmas::Bool::Decides::nat_tests), unfolding(instructions::specs::Depot::depot_seal, instructions::specs::Depot::depot_flaws, instructions::specs::Refusals::buffer_flaws))]
pub fn seal(drk: Drk, address: u64, line: &mut [u8], mac: &mut [u8]) -> Result<(), Refusal>
    ensures { gave (refusal_in result) line.new mac.new
        ≡ depot_seal aes_cipher (drk_in drk) address line.old mac.old }
{
    if address % 64 != 0 {
        return Err(Refusal::NoSuchLine);
    }
    if line.len() != 64 || mac.len() != 16 {
        return Err(Refusal::BufferSize);
    }
    drk.seal(address, line);
    mac.copy_from_slice(&drk.data_mac(address, line));
    Ok(())
}

// Opens a sealed data line whose MAC is right.
#[tactic(auto, using(std::proofs::lemmas::Bool::Decides::nat_tests), unfolding(instructions::specs::Depot::depot_open, instructions::specs::Depot::depot_flaws, instructions::specs::Refusals::buffer_flaws))]
pub fn open_line(drk: Drk, address: u64, line: &mut [u8], mac: &[u8]) -> Result<(), Refusal>
    ensures { gave (refusal_in result) line.new mac.now
        ≡ depot_open aes_cipher (drk_in drk) address line.old mac.now }
{
    if address % 64 != 0 {
        return Err(Refusal::NoSuchLine);
    }
    if line.len() != 64 || mac.len() != 16 {
        return Err(Refusal::BufferSize);
    }
    if drk.data_mac(address, line).as_slice() != mac {
        return Err(Refusal::MacWrong);
    }
    drk.unseal(address, line);
    Ok(())
}
