ghost use Rattle.std.specs.Prelude.{◌≡◌};
ghost use Rattle.survey.specs.Logs.{SurveysLog};
ghost use Rattle.survey.specs.Surveys.{lent};

use crate::any_rover::survey_rover;
use crate::faults::SurveyFault;
use chart::slot::Slot;
use frame::numbered::Numbered;
use framed::Framed;
use log_floor::floor::{LogFloor, LogRover};
use log_format::log::Log;

/// Surveys the floor that a log tells of, seen through the frame of a number. It answers the sheet's length.
///
/// It checks the frame, then the log, then the chart, and after the sweep the sheet's buffer.
pub fn survey_log(
    bytes: &[u8],
    frame: u8,
    chart: &mut [Slot<u16>],
    tour: &mut [u8],
    sheet: &mut [u8],
) -> Result<usize, SurveyFault>
    ensures { SurveysLog bytes.now frame (lent chart.old tour.old sheet.old) (lent chart.new tour.new sheet.new) result }
{
    let frame = Numbered::try_from(frame)?;
    let log = Log::read(bytes)?;
    let below = LogRover::new(LogFloor { log });
    survey_rover(Framed { below, frame }, chart, tour, sheet)
}
