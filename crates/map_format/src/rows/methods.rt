ghost use Rattle.std.specs.Prelude.{◌≡◌, ◌+◌, ◌/◌, ◌%◌, ◌<◌, ◌≤◌, length, IfSome};
ghost use Rattle.firsts.specs.First.{first};
ghost use Rattle.map_format.specs.Cells.{cell_in, cells_of, megacell_at};
ghost use Rattle.map_format.specs.Rows.{width as width_of, row_at, good_row, bad_row};

use super::Rows;
use crate::bytes::first_from;
use crate::cell::Cell;
use crate::cells::cell_of;
use board::megacell::Megacell;

impl<'a> Rows<'a> {
    /// The rows of a map.
    pub(crate) fn of(map: &'a [u8]) -> Rows<'a>
        requires { length map.now ≤ 1056 }
        ensures { result.map.now ≡ map.now }
    {
        let width = first_from(map, b'\n', 0).unwrap_or(map.len());
        Rows { map, width }
    }

    /// Where row `row` begins, when each row before it has the width and its LF.
    pub(crate) fn start_of(&self, row: usize) -> usize
        requires { row ≤ 1056 }
        ensures is { result ≡ row_at self.now.map.now row }
        ensures small { result ≤ 1116192 }
    {
        row * (self.width + 1)
    }

    /// Whether the row that begins at an offset has the width, 1 to 32, and its LF.
    fn is_good(&self, at: usize) -> bool
        requires { at ≤ length self.now.map.now }
        ensures { result ≡ good_row self.now.map.now (width_of self.now.map.now) at }
    {
        (1..=32).contains(&self.width) && first_from(self.map, b'\n', at) == Some(at + self.width)
    }

    /// Whether there is a row `row`, and it is bad.
    fn is_bad(&self, row: usize) -> bool
        requires { row < length self.now.map.now }
        ensures { result ≡ bad_row self.now.map.now row }
    {
        let at = self.start_of(row);
        at < self.map.len() && !self.is_good(at)
    }

    /// The first bad row.
    pub(crate) fn first_bad(&self) -> Option<usize>
        ensures is { result ≡ first (bad_row self.now.map.now) (length self.now.map.now) }
        ensures within { IfSome result (λ k. k < length self.now.map.now) }
    {
        (0..self.map.len()).find(|row| self.is_bad(*row))
    }

    /// What the map draws in a row and a column.
    fn cell(&self, row: usize, column: usize) -> Cell
        requires row { row < 32 }
        requires column { column < 32 }
        ensures { result ≡ cell_in self.now.map.now (width_of self.now.map.now) row column }
    {
        let at = self.start_of(row) + column;
        if column < self.width && at < self.map.len() {
            cell_of(self.map[at])
        } else {
            Cell::Blocked
        }
    }

    /// What the map draws on the whole board, row after row.
    pub(crate) fn draw(&self) -> [Cell; 1024]
        ensures { result ≡ cells_of self.now.map.now (width_of self.now.map.now) }
    {
        std::array::from_fn(|i| self.cell(i / 32, i % 32))
    }

    /// The megacell that the byte at an offset draws, which is on the board.
    #[tactic(auto, using(crate::proofs::Drawn::on_board))]
    pub(crate) fn megacell_of(&self, offset: usize) -> Megacell
        requires row { offset / (width_of self.now.map.now + 1) < 32 }
        requires column { offset % (width_of self.now.map.now + 1) < 32 }
        ensures { result ≡ megacell_at (offset / (width_of self.now.map.now + 1)) (offset % (width_of self.now.map.now + 1)) }
    {
        let length = self.width + 1;
        Megacell::new((offset / length) as u8, (offset % length) as u8).unwrap()
    }
}
