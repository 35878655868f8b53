ghost use Rattle.std.specs.Prelude.{◌<◌};

/// A square of a board with `SIDE` rows and `SIDE` columns: a row and a column, each below `SIDE`.
#[derive(Clone, Copy, PartialEq, Eq)]
pub struct Square<const SIDE: u8> {
    row: u8,
    column: u8,
    ghost rows: { row < SIDE },
    ghost columns: { column < SIDE },
}

pub mod debug;
pub mod methods;
