use crate::cell::Cell;
use board::megacell::Megacell;
use board::table::Table;

/// A floor that an accepted map draws: what each of the 1,024 megacells is, and the one the rover starts in.
#[derive(Drop)]
pub struct Drawing {
    cells: Table<Cell>,
    start: Megacell,
}

pub mod methods;
pub mod read;
