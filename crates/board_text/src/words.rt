// The words of a line, which blanks part.
ghost use Rattle.std.specs.Iterator.{at_most};
ghost use Rattle.std.specs.Prelude.{length};

// What is left of a line.
#[derive(Clone, Copy, Debug, PartialEq, Eq)]
pub(crate) struct Words<'a> {
    pub(crate) rest: &'a [u8],
}

// Whether a byte parts words.
fn is_blank(c: u8) -> bool {
    matches!(c, b' ' | b'\t' | b'\r')
}

// Kept: no `split` and `filter`, since these make an empty word of each blank, at 1.6 of the time on a text of blanks.
impl<'a> Iterator for Words<'a> {
    ghost use Rattle.board_text.specs.Parted.{Parted};

    type Item = &'a [u8];

    ghost next_gives = { Parted };

    ghost remaining = { λ s. at_most (length s.rest.now) };

    fn next(&mut self) -> Option<&'a [u8]> {
        let begin = self.rest.iter().position(|c| !is_blank(*c))?;
        let rest = &self.rest[begin..];
        let more = rest[1..].iter().position(|c| is_blank(*c));
        let end = more.map_or(rest.len(), |n| n + 1);
        self.rest = &rest[end..];
        Some(&rest[..end])
    }
}
