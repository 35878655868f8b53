ghost use Rattle.frame.specs.Numbered.{told};

use fault::Fault;
use fault::layer::Layer;
use fault::refusal::Refusal;
use thiserror::Error;

/// Why there is no frame of a number.
#[derive(Clone, Copy, Debug, PartialEq, Eq, Error)]
pub enum FrameFault {
    /// The number is over 7.
    #[error("there is no frame {number}: they are numbered 0 to 7")]
    Unknown { number: u8 },
}

impl Fault for FrameFault {
    ghost tells = { told };

    fn refusal(&self) -> Refusal {
        match self {
            FrameFault::Unknown { number: _ } => Refusal::new(1, Layer::Survey, 0),
        }
    }
}
