ghost use Rattle.sheet.specs.Refusing.{told};

use fault::Fault;
use fault::layer::Layer;
use fault::refusal::Refusal;
use thiserror::Error;

/// Why a text is not laid out.
#[derive(Clone, Copy, Debug, PartialEq, Eq, Error)]
pub enum SheetFault {
    /// A tour byte is not one of the letters N, E, S, W: the first such offset.
    #[error("byte {offset} of the tour is not N, E, S or W")]
    NoLetter { offset: usize },
    /// The buffer is too short: the bytes that the text needs.
    #[error("the buffer is too short: the text needs {needed} bytes")]
    Short { needed: usize },
}

impl Fault for SheetFault {
    ghost tells = { told };

    fn refusal(&self) -> Refusal {
        match *self {
            SheetFault::NoLetter { offset } => Refusal::new(16, Layer::Sheet, offset),
            SheetFault::Short { needed } => Refusal::new(17, Layer::Sheet, needed),
        }
    }
}
