//! A rover on a terrain, which is a floor with a reading at each place: one rover for every kind of terrain.
#![tactic(auto)]

ghost use Rattle.std.specs.Prelude.{◌≡◌, Some, Option};
ghost use Rattle.board.specs.declared.heading.Heading.{Heading};
ghost use Rattle.board.specs.Squares.{Place};
ghost use Rattle.board.specs.Floors.{Floor, SameFromBoth, ClosedAtEdge};

pub mod rover_on;

use board::heading::Heading;
use board::megacell::Megacell;
use board::place::Place;

/// A floor with a reading at each place, and where a rover starts on it.
pub trait Terrain {
    /// What is read. A reading is stored, and a stored one is replaced: it has to be droppable, and no more.
    type Reading: Drop;

    /// which sides of megacells are open
    ghost floor: { Self → Floor };

    /// the reading at each place
    ghost field: { Self → Place → Self.Reading };

    /// where a rover starts
    ghost start: { Self → Option Place };

    /// Whether the side at a heading of a megacell is open.
    fn is_open(&self, megacell: Megacell, heading: Heading) -> bool
        ensures { result ≡ floor self.now megacell heading };

    /// The reading at a place.
    fn reading(&self, place: Place) -> Self::Reading
        ensures { result ≡ field self.now place };

    /// Where a rover starts.
    fn start(&self) -> Place
        ensures { start self.now ≡ Some result };

    ghost sides: { (s : Self) → SameFromBoth (floor s) };

    ghost edge: { (s : Self) → ClosedAtEdge (floor s) };
}
