ghost use Rattle.std.specs.Prelude.{◌≡◌, ◌<◌};
ghost use Rattle.board.specs.Corners.{corner_of, exit};
ghost use Rattle.board.specs.Places.{megacell_of, slot_of};

use crate::corner::Corner;
use crate::heading::Heading;
use crate::megacell::Megacell;
use crate::square::Square;

/// A subcell of the board: a row and a column, each 0 to 63. A megacell is two by two of them.
pub type Place = Square<64>;

impl Place {
    /// The megacell that it lies in.
    #[tactic(auto, using(crate::proofs::Geometry::square_path), unfolding(crate::specs::Places::megacell_of))]
    pub fn megacell(self) -> Megacell
        ensures { result ≡ megacell_of self }
    {
        Megacell::within(self.row() / 2, self.column() / 2)
    }

    /// Which subcell of its megacell it is.
    #[tactic(auto, unfolding(crate::specs::Corners::corner_of, crate::specs::Corners::corner_by))]
    pub fn corner(self) -> Corner
        ensures { result ≡ corner_of self }
    {
        match (self.row() % 2 == 0, self.column() % 2 == 0) {
            (true, true) => Corner::NorthWest,
            (true, false) => Corner::NorthEast,
            (false, false) => Corner::SouthEast,
            (false, true) => Corner::SouthWest,
        }
    }

    /// The exit of its corner: west from the north-west subcell, north from the north-east,
    /// east from the south-east, south from the south-west.
    #[tactic(auto, unfolding(crate::specs::Corners::exit))]
    pub fn exit(self) -> Heading
        ensures { result ≡ exit self }
    {
        self.corner().exit()
    }

    /// Its slot among the 4,096 of a chart, which is its number: 64 times the row, and the column.
    pub fn slot(self) -> usize
        ensures is { result ≡ slot_of self }
        ensures below { result < 4096 }
    {
        self.number()
    }
}
