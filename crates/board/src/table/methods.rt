ghost use Rattle.std.specs.Prelude.{◌≡◌, slice_index_or, slice_set};
ghost use Rattle.board.specs.Squares.{number_of};

use super::Table;
use crate::megacell::Megacell;

impl<T: Copy> Table<T> {
    /// The table of these entries, row by row.
    pub fn of(entries: [T; 1024]) -> Table<T>
        ensures { result.entries ≡ entries }
    {
        Table { entries }
    }

    /// The entry of a megacell.
    pub fn get(&self, megacell: Megacell) -> T
        ensures { (default : T) → result ≡ slice_index_or self.now.entries (number_of megacell) default }
    {
        let number = megacell.number();
        self.entries[number]
    }

    /// Sets the entry of a megacell.
    pub fn set(&mut self, megacell: Megacell, entry: T)
        ensures { self.new.entries ≡ slice_set self.old.entries (number_of megacell) entry }
    {
        self.entries[megacell.number()] = entry;
    }
}
