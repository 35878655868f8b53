ghost use Rattle.std.specs.Prelude.{◌≡◌};
ghost use Rattle.survey.specs.Surveys.{lent, Surveys};

use crate::drive::drive;
use crate::faults::SurveyFault;
use chart::slot::Slot;
use chart::slots;
use rover::meaning::Rover;
use sheet::layout::lay_out;

// Chart, tour and sheet stay three parameters: a rule of the project, a chart is kept in no struct.

/// Surveys the floor that a rover stands on: empties the chart, makes one run, and lays out its sheet. It answers the
/// sheet's length.
///
/// Refused where the slots are too few, and then nothing is altered; and where the sheet has no room, which leaves
/// chart and tour as the run wrote them.
pub fn survey_rover<R: Rover + Drop>(
    rover: R,
    chart: &mut [Slot<R::Reading>],
    tour: &mut [u8],
    sheet: &mut [u8],
) -> Result<usize, SurveyFault>
    ensures { Surveys (R.Rover.floor rover) (R.Rover.field rover) (R.Rover.place rover) (lent chart.old tour.old sheet.old) (lent chart.new tour.new sheet.new) result }
{
    slots::empty(chart)?;
    let start = rover.place();
    let ending = drive(rover, chart, tour);
    let length = lay_out(sheet, start, &tour[..ending.moves as usize], ending)?;
    Ok(length)
}
