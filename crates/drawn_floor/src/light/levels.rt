ghost use Rattle.std.specs.Prelude.{◌≡◌, ◌*◌, false};
ghost use Rattle.std.specs.Float.Ieee.Exact.{HasValue};
ghost use Rattle.drawn_floor.specs.Lights.{lux, light_of};

use super::Light;
use map_format::cell::Cell;
use map_format::digit::Digit;

/// The level of a digit's lamp in lux: 12.5 times the digit, which no digit's product has to round.
pub fn level(digit: Digit) -> f32
    ensures is { result ≡ lux digit.value }
    ensures exact { HasValue result false (25 * digit.value) 2 }
{
    digit.value() as f32 * 12.5
}

impl Light {
    /// What is read over a cell.
    pub fn over(cell: Cell) -> Light
        ensures { result ≡ light_of cell }
    {
        match cell {
            Cell::Blocked | Cell::Free => Light::Unlit,
            Cell::Lamp(digit) => Light::Lux(level(digit)),
        }
    }
}
