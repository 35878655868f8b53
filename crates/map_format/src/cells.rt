ghost use Rattle.std.specs.Prelude.{◌≡◌};
ghost use Rattle.map_format.specs.Cells.{cell_of};

use super::cell::Cell;
use super::digit::Digit;

/// What a byte of a map draws.
pub(crate) fn cell_of(byte: u8) -> Cell
    ensures { result ≡ cell_of byte }
{
    match byte {
        b'#' => Cell::Blocked,
        _ => Digit::of_byte(byte).map_or(Cell::Free, Cell::Lamp),
    }
}
