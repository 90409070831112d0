// The numbers behind a statement's word, in a row that can be copied.
ghost use Rattle.std.specs.Prelude.{◌≡◌, ◌≤◌, ◌+◌, ◌++◌, ◌∷◌, [], take, OnOk, OnErr};

use board_numbers::errors::FileError;
use board_numbers::number::Number;
use std::ops::DerefSlice;

// At most 17 numbers in their order.
// Kept: an array and a count, since a statement is copied (what may not change) and ArrayVec is not.
#[derive(Clone, Copy, Debug, PartialEq, Eq)]
pub struct Numbers {
    all: [Number; 17],
    count: usize,
    ghost fits: { count ≤ 17 },
}

impl Numbers {
    // No number.
    pub fn new() -> Numbers
        ensures { take result.count result.all ≡ [] }
    {
        Numbers {
            all: [Number::Plain(0); 17],
            count: 0,
        }
    }

    // One number more, where there is room for it.
    pub fn push(&mut self, n: Number) -> Result<(), FileError>
        ensures pushed { OnOk result (take self.new.count self.new.all ≡ take self.old.count self.old.all ++ n ∷ []) }
        ensures counted { OnOk result (self.new.count ≡ self.old.count + 1) }
        ensures full { OnErr result ((self.new ≡ self.old) × (self.old.count ≡ 17)) }
    {
        if self.count == 17 {
            return Err(FileError::LeftOver);
        }
        self.all[self.count] = n;
        self.count += 1;
        Ok(())
    }
}

impl DerefSlice for Numbers {
    type Elem = Number;

    ghost deref_gives = { λ s xs. xs ≡ take s.count s.all };

    fn deref(&self) -> &[Number] {
        &self.all[..self.count]
    }
}
