ghost use Rattle.std.specs.Prelude.{◌≡◌};
ghost use Rattle.map_format.specs.Cells.{cell_at};

use super::Drawing;
use crate::cell::Cell;
use board::megacell::Megacell;

impl Drawing {
    /// What is drawn at a megacell; blocked where the map does not reach.
    pub fn cell(&self, megacell: Megacell) -> Cell
        ensures { result ≡ cell_at self.now megacell }
    {
        self.cells.get(megacell)
    }

    /// The megacell of `S`.
    pub fn start(&self) -> Megacell
        ensures { result ≡ self.now.start }
    {
        self.start
    }
}
