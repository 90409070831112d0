// The checks at the entry of a machine call: refusals 101 to 105 of what is lent, and 106, 107, 108 and 110 of the call
// itself.
#![tactic(auto)]

pub mod call;
mod scan;

ghost use Rattle.std.specs.Prelude.{◌≡◌, ◌++◌, ◌≤◌};
ghost use Rattle.instructions.specs.Rules.{first_of};
ghost use Rattle.instructions.specs.Board.{document_board};
ghost use Rattle.instructions.specs.Refusals.{memory_flaws, cache_flaws};
ghost use Rattle.answers.specs.Numbers.{refusal_in};

use answers::refusals::Refusal;

// The lowest of 101 to 104 that applies to buffers of these lengths and a directory, where one does.
#[tactic(auto, using(answers::proofs::Laws::refusal_some, std::proofs::lemmas::Bool::Decides::nat_tests), unfolding(instructions::specs::Refusals::memory_flaws, instructions::specs::Refusals::size_fine))]
// Kept: lengths and not the buffers as one, since C lends a listing shared slices.
pub fn lent(mem: usize, macs: usize, cache: usize, dir: &[u32]) -> Result<(), Refusal>
    ensures { refusal_in result ≡ first_of (memory_flaws mem macs ++ cache_flaws document_board mem cache dir.now) }
{
    memory(mem, macs)?;
    slots(mem, cache, dir)
}

// 101 where the memory has no size of document 01's, 102 where the MAC area is not M/4 bytes.
#[tactic(auto, using(std::proofs::lemmas::Bool::Decides::nat_tests), unfolding(instructions::specs::Refusals::memory_flaws, instructions::specs::Refusals::size_fine))]
fn memory(mem: usize, macs: usize) -> Result<(), Refusal>
    ensures { refusal_in result ≡ first_of (memory_flaws mem macs) }
{
    if mem % 64 != 0 || mem < 128 || 65536 < mem {
        return Err(Refusal::MemorySize);
    }
    if macs != mem / 4 {
        return Err(Refusal::MacAreaSize);
    }
    Ok(())
}

// 103 where the number of slots or of data bytes is not document 01's, 104 where the directory is not orderly.
#[tactic(auto, using(std::proofs::lemmas::Bool::Decides::nat_tests), unfolding(instructions::specs::Refusals::cache_flaws, instructions::specs::Board::document_board))]
fn slots(mem: usize, cache: usize, dir: &[u32]) -> Result<(), Refusal>
    requires { mem ≤ 65536 }
    ensures { refusal_in result ≡ first_of (cache_flaws document_board mem cache dir.now) }
{
    if dir.is_empty() || 64 < dir.len() || cache != dir.len() * 64 {
        return Err(Refusal::CacheSize);
    }
    if !scan::all_fine(dir, (mem / 64) as u32) {
        return Err(Refusal::DirectoryNumber);
    }
    Ok(())
}
