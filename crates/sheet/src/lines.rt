ghost use Rattle.std.specs.Prelude.{◌≡◌, ◌≤◌, length};
ghost use Rattle.sheet.specs.Sheets.{worded, start_line, last_line, refusal_line};
ghost use Rattle.sheet.specs.Writing.{Room, Put};

use super::text::{digits, put_byte, put_spaced, put_text};
use board::place::Place;
use fault::Fault;
use sweep::sweep::Record;

/// A line of a word and numbers, each number after a space.
// No `impl Model`: the borrow check does not cover the array of a struct that holds a reference too.
#[derive(Clone, Copy)]
pub(crate) struct Line<'a, const N: usize> {
    word: &'a [u8],
    numbers: [usize; N],

    // A word is no longer than a line of letters, and at most three numbers follow it.
    ghost short: { length word.now ≤ 64 },
    ghost few: { N ≤ 3 },
}

impl<'a, const N: usize> Line<'a, N> {
    /// A line of this word and these numbers.
    pub(crate) fn new(word: &'a [u8], numbers: [usize; N]) -> Self
        requires short { length word.now ≤ 64 }
        requires few { N ≤ 3 }
        ensures { worded result.word.now result.numbers ≡ worded word.now numbers.entry }
    {
        Line { word, numbers }
    }

    /// How many bytes the line takes.
    pub(crate) fn length(&self) -> usize
        ensures is { result ≡ length (worded self.now.word.now self.now.numbers) }
        ensures few { result ≤ 128 }
    {
        let mut total = self.word.len();
        for number in &self.numbers {
            total += 1 + digits(*number);
        }
        total + 1
    }

    /// Writes the line at the front of the part lent: its length.
    pub(crate) fn put(&self, out: &mut [u8]) -> usize
        requires { Room out.old (worded self.now.word.now self.now.numbers) }
        ensures { Put out.old (worded self.now.word.now self.now.numbers) out.new result }
    {
        // A loop, and no chain: each number is lent the part after the one before, a rule of the project.
        let mut at = put_text(out, self.word);
        for number in &self.numbers {
            at += put_spaced(&mut out[at..], *number);
        }
        at + put_byte(&mut out[at..], b'\n')
    }
}

/// The first line of a sheet.
pub(crate) fn start_line(start: Place) -> Line<'static, 2>
    ensures { worded result.word.now result.numbers ≡ start_line start }
{
    Line::new(b"START", [start.row() as usize, start.column() as usize])
}

/// The last line of a sheet.
pub(crate) fn last_line(ending: Record) -> Line<'static, 3>
    ensures { worded result.word.now result.numbers ≡ last_line ending }
{
    let word: &[u8] = if ending.home { b"HOME" } else { b"STOPPED" };
    let numbers = [
        ending.moves as usize,
        ending.looks as usize,
        ending.megacells as usize,
    ];
    Line::new(word, numbers)
}

/// The line that tells a refusal.
pub(crate) fn refusal_line<F: Fault>(fault: &F) -> Line<'static, 2>
    ensures { worded result.word.now result.numbers ≡ refusal_line (F.Fault.tells fault.now).number (F.Fault.tells fault.now).place }
{
    Line::new(b"REFUSED", [fault.number() as usize, fault.place()])
}
