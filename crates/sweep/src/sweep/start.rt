ghost use Rattle.std.specs.Prelude.{◌≡◌, ℕ, List};
ghost use Rattle.chart.specs.Charts.{Slot as SlotOf, Blank};
ghost use Rattle.sweep.specs.Journey.{Journey, Charts, Ended};
ghost use Rattle.sweep.specs.Single.{Begun};

use super::{Record, Sweep};
use crate::marks::Marks;
use rover::meaning::Rover;

impl<R: Rover> Sweep<R> {
    /// A new sweep of a rover, from where the rover stands.
    pub fn start(rover: R) -> Sweep<R>
        ensures begun { Begun R.Rover rover result }
        ensures law { Journey R.Rover rover 0 result }
        ensures chart { (slots : List (SlotOf R.Reading)) → Blank slots → Charts R.Rover rover result slots }
    {
        let start = rover.place();
        Sweep {
            rover,
            start,
            marks: Marks::fresh(start),
            told: Record {
                moves: 0,
                looks: 0,
                megacells: 1,
                home: false,
            },
        }
    }

    /// Gives the rover back, with a record of the four questions.
    pub fn end(self) -> (R, Record)
        ensures is { (result.0 ≡ self.rover) × (result.1 ≡ self.told) }
        ensures law { (origin : R) (asked : ℕ) → Journey R.Rover origin asked self → Ended R.Rover origin asked result.0 result.1 }
    {
        // Each field is named: a sweep is not `Drop`, so that the language takes no `..` here.
        let Sweep {
            rover,
            start: _,
            marks: _,
            told,
        } = self;
        (rover, told)
    }
}
