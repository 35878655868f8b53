ghost use Rattle.std.specs.Prelude.{◌<◌};

/// A digit of a map, 0 to 9.
#[derive(Clone, Copy, Debug)]
pub struct Digit {
    value: u8,
    ghost small: { value < 10 },
}

pub mod methods;
