ghost use Rattle.std.specs.Prelude.{◌≡◌};
ghost use Rattle.survey.specs.declared.faults.SurveyFault.TheVariants.{Frame, Map, Log, Chart, Rover, Sweep, Sheet};
ghost use Rattle.survey.specs.Faults.{told};

use chart::faults::ChartFault;
use fault::Fault;
use fault::refusal::Refusal;
use frame::faults::FrameFault;
use log_record::faults::LogFault;
use map_format::faults::MapFault;
use rover::faults::RoverFault;
use sheet::faults::SheetFault;
use sweep::faults::SweepFault;
use thiserror::Error;

/// Why a survey is refused. The fault of the layer that refuses is whole inside.
#[derive(Clone, Copy, Debug, PartialEq, Eq, Error)]
pub enum SurveyFault {
    /// No frame has the number.
    #[error(transparent)]
    Frame(FrameFault),
    #[error(transparent)]
    Map(MapFault),
    #[error(transparent)]
    Log(LogFault),
    #[error(transparent)]
    Chart(ChartFault),
    #[error(transparent)]
    Rover(RoverFault),
    #[error(transparent)]
    Sweep(SweepFault),
    #[error(transparent)]
    Sheet(SheetFault),
}

// By hand: what a derive writes has no contract, and the contracts name the fault that `?` makes.
impl From<FrameFault> for SurveyFault {
    ghost from_gives = { λ e r. r ≡ Frame e };

    fn from(fault: FrameFault) -> SurveyFault {
        SurveyFault::Frame(fault)
    }
}

impl From<MapFault> for SurveyFault {
    ghost from_gives = { λ e r. r ≡ Map e };

    fn from(fault: MapFault) -> SurveyFault {
        SurveyFault::Map(fault)
    }
}

impl From<LogFault> for SurveyFault {
    ghost from_gives = { λ e r. r ≡ Log e };

    fn from(fault: LogFault) -> SurveyFault {
        SurveyFault::Log(fault)
    }
}

impl From<ChartFault> for SurveyFault {
    ghost from_gives = { λ e r. r ≡ Chart e };

    fn from(fault: ChartFault) -> SurveyFault {
        SurveyFault::Chart(fault)
    }
}

impl From<RoverFault> for SurveyFault {
    ghost from_gives = { λ e r. r ≡ Rover e };

    fn from(fault: RoverFault) -> SurveyFault {
        SurveyFault::Rover(fault)
    }
}

impl From<SweepFault> for SurveyFault {
    ghost from_gives = { λ e r. r ≡ Sweep e };

    fn from(fault: SweepFault) -> SurveyFault {
        SurveyFault::Sweep(fault)
    }
}

impl From<SheetFault> for SurveyFault {
    ghost from_gives = { λ e r. r ≡ Sheet e };

    fn from(fault: SheetFault) -> SurveyFault {
        SurveyFault::Sheet(fault)
    }
}

impl Fault for SurveyFault {
    ghost tells = { told };

    fn refusal(&self) -> Refusal {
        match self {
            SurveyFault::Frame(fault) => fault.refusal(),
            SurveyFault::Map(fault) => fault.refusal(),
            SurveyFault::Log(fault) => fault.refusal(),
            SurveyFault::Chart(fault) => fault.refusal(),
            SurveyFault::Rover(fault) => fault.refusal(),
            SurveyFault::Sweep(fault) => fault.refusal(),
            SurveyFault::Sheet(fault) => fault.refusal(),
        }
    }
}
