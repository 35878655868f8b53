ghost use Rattle.map_format.specs.Faults.{told};

use fault::Fault;
use fault::layer::Layer;
use fault::refusal::Refusal;
use thiserror::Error;

/// Why a map is refused. An offset counts the map's bytes from 0.
#[derive(Clone, Copy, Debug, PartialEq, Eq, Error)]
pub enum MapFault {
    /// It has no bytes, or more than 1,056.
    #[error("a map has 1 to 1056 bytes, and this one {bytes}")]
    Length { bytes: usize },
    /// The first byte that is not LF, `#`, `.`, `S` or a digit.
    #[error("the byte at offset {offset} is not a line end, #, ., S or a digit")]
    ForbiddenByte { offset: usize },
    /// The first row with no cell, with over 32 cells, with more or fewer than the first row, or with no LF:
    /// where it begins.
    #[error("the row at offset {offset} is empty, wider than 32, not as wide as the first, or has no line end")]
    BadRow { offset: usize },
    /// A 33rd row: where it begins.
    #[error("a 33rd row begins at offset {offset}")]
    ExtraRow { offset: usize },
    /// No `S` in a map of so many bytes.
    #[error("none of the {bytes} bytes is an S")]
    NoStart { bytes: usize },
    /// The second `S`.
    #[error("there is a second S at offset {offset}")]
    SecondStart { offset: usize },
}

impl Fault for MapFault {
    ghost tells = { told };

    fn refusal(&self) -> Refusal {
        match *self {
            MapFault::Length { bytes: _ } => Refusal::new(2, Layer::Map, 0),
            MapFault::ForbiddenByte { offset } => Refusal::new(3, Layer::Map, offset),
            MapFault::BadRow { offset } => Refusal::new(4, Layer::Map, offset),
            MapFault::ExtraRow { offset } => Refusal::new(5, Layer::Map, offset),
            MapFault::NoStart { bytes } => Refusal::new(6, Layer::Map, bytes),
            MapFault::SecondStart { offset } => Refusal::new(6, Layer::Map, offset),
        }
    }
}
