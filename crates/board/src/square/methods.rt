ghost use Rattle.std.specs.Prelude.{◌≡◌, ◌*◌, ◌<◌};
ghost use Rattle.board.specs.Squares.{squared, number_of};
ghost use Rattle.board.specs.Steps.{beside};

use super::Square;
use crate::heading::Heading;

impl<const SIDE: u8> Square<SIDE> {
    /// The square at these numbers; none where either is not below `SIDE`.
    #[tactic(auto, unfolding(crate::specs::Squares::squared))]
    pub fn new(row: u8, column: u8) -> Option<Square<SIDE>>
        ensures { result ≡ squared SIDE row column }
    {
        if row < SIDE && column < SIDE {
            Some(Square { row, column })
        } else {
            None
        }
    }

    /// The square at two numbers that are in range.
    pub(crate) fn within(row: u8, column: u8) -> Square<SIDE>
        requires row { row < SIDE }
        requires column { column < SIDE }
        ensures row { result.row ≡ row }
        ensures column { result.column ≡ column }
    {
        Square { row, column }
    }

    /// The row, counted southward.
    pub fn row(self) -> u8
        ensures { result ≡ self.entry.row }
    {
        self.row
    }

    /// The column, counted eastward.
    pub fn column(self) -> u8
        ensures { result ≡ self.entry.column }
    {
        self.column
    }

    /// The neighbour at a heading; none off the board.
    #[tactic(auto, unfolding(crate::specs::Steps::beside))]
    pub fn beside(self, heading: Heading) -> Option<Square<SIDE>>
        ensures { result ≡ beside self.entry heading }
    {
        match heading {
            Heading::North => Square::new(self.row.checked_sub(1)?, self.column),
            Heading::East => Square::new(self.row, self.column + 1),
            Heading::South => Square::new(self.row + 1, self.column),
            Heading::West => Square::new(self.row, self.column.checked_sub(1)?),
        }
    }

    /// Its number, row by row: `SIDE` times the row, and the column.
    pub fn number(self) -> usize
        ensures is { result ≡ number_of self.entry }
        ensures below { result < SIDE * SIDE }
    {
        SIDE as usize * self.row as usize + self.column as usize
    }
}
