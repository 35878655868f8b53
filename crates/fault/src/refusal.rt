ghost use Rattle.std.specs.Prelude.{◌≡◌};
ghost use Rattle.fault.specs.Refusals.{refused};

use crate::layer::Layer;

/// What a refusal tells. What the place counts (an offset, a record, a slot, a number of bytes) belongs to the number.
#[derive(Clone, Copy, Debug, PartialEq, Eq)]
pub struct Refusal {
    /// The number of the refusal, 1 to 17, which is what people are told; in code the fault's enum has the kind.
    pub number: u8,
    /// The layer that refuses.
    pub layer: Layer,
    /// Where, or how much.
    pub place: usize,
}

impl Refusal {
    /// The refusal of a number, by a layer, at a place.
    pub fn new(number: u8, layer: Layer, place: usize) -> Refusal
        ensures { result ≡ refused number layer place }
    {
        Refusal {
            number,
            layer,
            place,
        }
    }
}
