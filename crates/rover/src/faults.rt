ghost use Rattle.rover.specs.Drive.{told};

use board::heading::Heading;
use fault::Fault;
use fault::layer::Layer;
use fault::refusal::Refusal;
use thiserror::Error;

/// Why a rover does not step.
#[derive(Clone, Copy, Debug, PartialEq, Eq, Error)]
pub enum RoverFault {
    /// The side is closed, or the next subcell lies off the board: the slot (64 times the row, and the column)
    /// of the place stood on, and the heading asked for.
    #[error("no way {heading} from row {row}, column {column}: that side is closed", row = .slot / 64, column = .slot % 64)]
    // The slot, and no `Place`: a refusal tells a number.
    Closed {
        slot: usize,
        heading: Heading,
    },
}

impl Fault for RoverFault {
    ghost tells = { told };

    fn refusal(&self) -> Refusal {
        match *self {
            RoverFault::Closed { slot, heading: _ } => Refusal::new(15, Layer::Rover, slot),
        }
    }
}
