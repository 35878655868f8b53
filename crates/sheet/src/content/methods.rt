ghost use Rattle.std.specs.Prelude.{◌≡◌, length};
ghost use Rattle.sheet.specs.Contents.{text};
ghost use Rattle.sheet.specs.Writing.{Room, Put};

use super::Content;
use crate::letters::letter_lines;

impl<'a> Content<'a> {
    /// How many bytes the sheet takes: an LF for each 64 letters begun.
    pub(crate) fn length(&self) -> usize
        ensures { result ≡ length (text self.now) }
    {
        let letters = self.tour.len() + self.tour.len().div_ceil(64);
        self.start.length() + letters + self.ending.length()
    }

    /// Writes the sheet at the front of the part lent, line after line: its length.
    pub(crate) fn put(&self, out: &mut [u8]) -> usize
        requires { Room out.old (text self.now) }
        ensures { Put out.old (text self.now) out.new result }
    {
        let first = self.start.put(out);
        let second = first + letter_lines(&mut out[first..], self.tour);
        second + self.ending.put(&mut out[second..])
    }
}
