// The refusals of the record and of a call's own arguments: 105, 106, 107, 108 and 110.
#![tactic(auto, using(std::proofs::lemmas::Bool::Decides::nat_tests), unfolding(instructions::specs::Refusals::line_flaws, instructions::specs::Refusals::run_flaws))]

ghost use Rattle.std.specs.Prelude.{◌≡◌, not, ◌||◌, [], ◌∷◌, ◌++◌, eqb, ltb};
ghost use Rattle.instructions.specs.Rules.{first_of};
ghost use Rattle.instructions.specs.Refusals.{line_flaws, run_flaws};
ghost use Rattle.answers.specs.Numbers.{refusal_in};

use answers::refusals::Refusal;

// 105 where R0 is not zero or the mode is above 2.
// Kept: a mode is a number, as C's record has it.
pub fn record(zeroth: u64, mode: u8) -> Result<(), Refusal>
    ensures { refusal_in result ≡ first_of ((not (eqb zeroth 0) || ltb 2 mode, 105) ∷ []) }
{
    if zeroth != 0 || 2 < mode {
        return Err(Refusal::Record);
    }
    Ok(())
}

// 106 where a memory of so many bytes has no line n.
pub fn line(mem: usize, n: u64) -> Result<(), Refusal>
    ensures { refusal_in result ≡ first_of (line_flaws mem n) }
{
    if (mem / 64) as u64 <= n {
        return Err(Refusal::NoSuchLine);
    }
    Ok(())
}

// 106 or 107 of a call over the bus.
pub fn transfer(mem: usize, n: u64, len: usize, k: usize) -> Result<(), Refusal>
    ensures { refusal_in result ≡ first_of (line_flaws mem n ++ ((not (eqb len k), 107) ∷ [])) }
{
    line(mem, n)?;
    if len != k {
        return Err(Refusal::BufferSize);
    }
    Ok(())
}

// 108 where a run is of more than 10,000 instructions.
pub fn steps(n: u64) -> Result<(), Refusal>
    ensures { refusal_in result ≡ first_of (run_flaws n) }
{
    if 10000 < n {
        return Err(Refusal::TooManySteps);
    }
    Ok(())
}

// 110 where a row of so many records is not one of a record for each slot.
pub fn row(rows: usize, slots: usize) -> Result<(), Refusal>
    ensures { refusal_in result ≡ first_of ((not (eqb rows slots), 110) ∷ []) }
{
    if rows != slots {
        return Err(Refusal::RowSize);
    }
    Ok(())
}
