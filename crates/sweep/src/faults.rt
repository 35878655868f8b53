ghost use Rattle.std.specs.Prelude.{◌≡◌};
ghost use Rattle.sweep.specs.declared.faults.SweepFault.TheVariants.{Chart, Rover};
ghost use Rattle.sweep.specs.Faults.{told};

use chart::faults::ChartFault;
use fault::Fault;
use fault::layer::Layer;
use fault::refusal::Refusal;
use rover::faults::RoverFault;
use thiserror::Error;

/// Why a sweep does not move.
#[derive(Clone, Copy, Debug, PartialEq, Eq, Error)]
pub enum SweepFault {
    /// The chart refuses: its slots are too few.
    #[error(transparent)]
    Chart(ChartFault),
    /// An advance is asked of a sweep that is home already.
    #[error("the sweep is home already")]
    Home,
    /// The rover refuses the step. No sweep that was started ever meets this.
    #[error(transparent)]
    Rover(RoverFault),
}

// By hand: what a derive writes has no contract, and the contracts name the fault that `?` makes.
impl From<ChartFault> for SweepFault {
    ghost from_gives = { λ e r. r ≡ Chart e };

    fn from(fault: ChartFault) -> SweepFault {
        SweepFault::Chart(fault)
    }
}

impl From<RoverFault> for SweepFault {
    ghost from_gives = { λ e r. r ≡ Rover e };

    fn from(fault: RoverFault) -> SweepFault {
        SweepFault::Rover(fault)
    }
}

impl Fault for SweepFault {
    ghost tells = { told };

    fn refusal(&self) -> Refusal {
        match self {
            SweepFault::Chart(fault) => fault.refusal(),
            SweepFault::Home => Refusal::new(14, Layer::Sweep, 0),
            SweepFault::Rover(fault) => fault.refusal(),
        }
    }
}
