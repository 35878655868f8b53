ghost use Rattle.std.specs.Prelude.{◌≡◌, length};
ghost use Rattle.firsts.specs.First.{first};
ghost use Rattle.sheet.specs.Refusing.{is_letter as is_heading_letter, no_letter};
ghost use Rattle.sheet.specs.Sheets.{letter_lines as lines_of};
ghost use Rattle.sheet.specs.Writing.{Room, Put};

use super::lines::Line;

/// Whether a byte is N, E, S or W.
fn is_letter(byte: u8) -> bool
    ensures { result ≡ is_heading_letter byte }
{
    matches!(byte, b'N' | b'E' | b'S' | b'W')
}

/// The offset of the first byte of a tour that is no letter.
pub(crate) fn first_unlettered(tour: &[u8]) -> Option<usize>
    ensures { result ≡ first (no_letter tour.now) (length tour.now) }
{
    tour.iter().position(|byte| !is_letter(*byte))
}

/// The letters of a tour, 64 a line, at the front of the part lent: how many bytes they take. A line
/// begins where the one before it stopped.
pub(crate) fn letter_lines(out: &mut [u8], letters: &[u8]) -> usize
    requires { Room out.old (lines_of letters.now) }
    ensures { Put out.old (lines_of letters.now) out.new result }
{
    // A loop, and no chain: each line is lent the part after the one before, a rule of the project.
    let mut at = 0;
    for line in letters.chunks(64) {
        at += Line::new(line, []).put(&mut out[at..]);
    }
    at
}
