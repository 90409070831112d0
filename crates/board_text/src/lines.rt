// The lines of a text, with their numbers.
ghost use Rattle.std.specs.Prelude.{◌≡◌, ◌+◌, ◌^◌, ◌<◌, length};
ghost use Rattle.std.specs.Iterator.{at_most};

// A line of a text: its number, 1 for the first, and its bytes without the end.
#[derive(Clone, Copy, Debug, PartialEq, Eq)]
pub struct Line<'a> {
    pub number: u64,
    pub text: &'a [u8],
}

// What is left of a text, and how many lines came before; a line's end is '\n' or the text's.
#[derive(Clone, Copy, Debug, PartialEq, Eq)]
pub struct Lines<'a> {
    pub rest: &'a [u8],
    pub passed: u64,
    ghost counted: { passed + length rest.now < 2 ^ 64 },
}

// The lines of a text, from its first on.
pub fn of(text: &[u8]) -> Lines<'_>
    ensures rest { result.rest.now ≡ text.now }
    ensures passed { result.passed ≡ 0 }
{
    Lines {
        rest: text,
        passed: 0,
    }
}

impl<'a> Iterator for Lines<'a> {
    ghost use Rattle.board_text.specs.Steps.{Steps};

    type Item = Line<'a>;

    ghost next_gives = { Steps };

    ghost remaining = { λ s. at_most (length s.rest.now) };

    fn next(&mut self) -> Option<Line<'a>> {
        let line = self.rest.split_inclusive(|c| *c == b'\n').next()?;
        self.rest = &self.rest[line.len()..];
        self.passed += 1;
        Some(Line {
            number: self.passed,
            text: line.strip_suffix(b"\n").unwrap_or(line),
        })
    }
}
