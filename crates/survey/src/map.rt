ghost use Rattle.std.specs.Prelude.{◌≡◌};
ghost use Rattle.survey.specs.Maps.{SurveysMap};
ghost use Rattle.survey.specs.Surveys.{lent};

use crate::any_rover::survey_rover;
use crate::faults::SurveyFault;
use chart::slot::Slot;
use drawn_floor::floor::{DrawnFloor, DrawnRover};
use drawn_floor::light::Light;
use frame::numbered::Numbered;
use framed::Framed;
use map_format::drawing::Drawing;

// The frame is a number: a rule of the project. The survey of a log is beside this one, and no generic of both is plainer:
// what they share is `survey_rover`, and what is left differs in its types, its bytes and its refusals.

/// Surveys the floor that a map draws, seen through the frame of a number. It answers the sheet's length.
///
/// It checks the frame, then the map, then the chart, and after the sweep the sheet's buffer.
pub fn survey_map(
    map: &[u8],
    frame: u8,
    chart: &mut [Slot<Light>],
    tour: &mut [u8],
    sheet: &mut [u8],
) -> Result<usize, SurveyFault>
    ensures { SurveysMap map.now frame (lent chart.old tour.old sheet.old) (lent chart.new tour.new sheet.new) result }
{
    let frame = Numbered::try_from(frame)?;
    let drawing = Drawing::read(map)?;
    let below = DrawnRover::new(DrawnFloor { drawing });
    survey_rover(Framed { below, frame }, chart, tour, sheet)
}
