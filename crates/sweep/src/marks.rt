ghost use Rattle.std.specs.Prelude.{◌≡◌, [], length, slice_set};
ghost use Rattle.board.specs.Squares.{number_of, Megacell};
ghost use Rattle.sweep.specs.Table.{mark_at, choice, Says};

use crate::choice::Choice;
use crate::mark::Mark;
use board::megacell::Megacell;
use board::place::Place;
use board::table::Table;

/// A mark for each of the 1,024 megacells.
#[derive(Drop)]
pub struct Marks {
    table: Table<Mark>,
    ghost size: { length table.entries ≡ 1024 },
}

impl Marks {
    /// The marks of a new sweep: the root where it starts, and nothing known of the others.
    pub(crate) fn fresh(start: Place) -> Marks
        ensures { (m : Megacell) → Says start [] m (mark_at result.table.entries m) }
    {
        let mut marks = Marks {
            table: Table::of([Mark::New; 1024]),
        };
        marks.set(start.megacell(), Mark::Root);
        marks
    }

    /// Marks a megacell.
    pub(crate) fn set(&mut self, megacell: Megacell, mark: Mark)
        ensures { self.new.table.entries ≡ slice_set self.old.table.entries (number_of megacell) mark }
    {
        self.table.set(megacell, mark);
    }

    /// What to do at a place, before any look: cross to the parent; turn where the neighbour at the exit is absent
    /// or old; look where it is new.
    pub(crate) fn choose(&self, place: Place) -> Choice
        ensures { result ≡ choice self.now.table.entries place }
    {
        let own = place.megacell();
        let exit = place.exit();
        match own.beside(exit) {
            None => Choice::Turn,
            Some(other) => {
                if self.table.get(own).leads(exit) {
                    Choice::Cross
                } else {
                    self.table.get(other).look_if_new(other)
                }
            }
        }
    }
}
