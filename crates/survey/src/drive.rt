ghost use Rattle.std.specs.Prelude.{◌≡◌, ◌≤◌, length};
ghost use Rattle.chart.specs.Charts.{Blank};
ghost use Rattle.survey.specs.Course.{moves_in, record_after};
ghost use Rattle.survey.specs.Surveys.{Driven};

use chart::slot::Slot;
use rover::meaning::Rover;
use sweep::sweep::{Record, Sweep};

/// One run of a rover over an empty chart: the record of its sweep. Each move has its letter.
pub(crate) fn drive<R: Rover + Drop>(
    rover: R,
    chart: &mut [Slot<R::Reading>],
    tour: &mut [u8],
) -> Record
    requires { Blank chart.old }
    ensures fits { result.moves ≤ length tour.old }
    ensures ending { result ≡ record_after (R.Rover.floor rover) (R.Rover.place rover) (moves_in (R.Rover.floor rover) (R.Rover.place rover) (length tour.old)) }
    ensures driven { Driven (R.Rover.floor rover) (R.Rover.field rover) (R.Rover.place rover) (moves_in (R.Rover.floor rover) (R.Rover.place rover) (length tour.old)) chart.old tour.old chart.new tour.new }
{
    let mut sweep = Sweep::start(rover);
    // By cases: with `unwrap` the proof did not close.
    match sweep.run(chart, tour) {
        Ok(_) => {}
        Err(_) => unreachable(),
    }
    let (_rover, ending) = sweep.end();
    ending
}
