// The scan of a directory (refusal 104): is each number right in its slot?
ghost use Rattle.std.specs.Prelude.{◌≡◌, ◌≤◌, length};
ghost use Rattle.directory.specs.Direct.{all_fine};

use directory::number;

// Is every number of a directory right in its slot, for a memory of so many lines?
pub(crate) fn all_fine(dir: &[u32], lines: u32) -> bool
    requires { (length dir.now ≤ 64) × (lines ≤ 1024) }
    ensures { result ≡ all_fine lines (length dir.now) 0 dir.now }
{
    let slots = dir.len() as u32;
    dir.iter().enumerate().all(|(place, number)| number::fine(*number, lines, slots, place as u32))
}
