//! The library used rightly: a rover that a sweep holds is driven by that sweep alone, and an ended sweep makes no move.
//! The edits in the folder misuse/ break this, and the borrow check refuses them.
#![tactic(auto)]

ghost use Rattle.std.specs.Prelude.{◌≡◌};

use board::heading::Heading;
use chart::slot::Slot;
use rover::faults::RoverFault;
use rover::meaning::Rover;
use sweep::faults::SweepFault;
use sweep::sweep::{Moved, Sweep};

/// One move by a sweep, and then, the sweep ended, one step by hand.
fn step_after_sweep<R: Rover>(
    mut rover: R,
    chart: &mut [Slot<R::Reading>],
    heading: Heading,
) -> (R, Result<(), RoverFault>)
    ensures { (R.Rover.floor result.0 ≡ R.Rover.floor rover) × (R.Rover.field result.0 ≡ R.Rover.field rover) }
{
    let mut sweep = Sweep::start(rover);
    let _ = sweep.advance(chart);
    let (mut given_back, _record) = sweep.end();
    let stepped = given_back.step(heading);
    (given_back, stepped)
}

/// A sweep ended before its first move, and another started with the rover given back.
fn sweep_again<R: Rover>(rover: R, chart: &mut [Slot<R::Reading>]) -> (R, Result<Moved, SweepFault>)
    ensures { (R.Rover.floor result.0 ≡ R.Rover.floor rover) × (R.Rover.field result.0 ≡ R.Rover.field rover) }
{
    let mut first = Sweep::start(rover);
    let _ = first.home();
    let (given_back, _record) = first.end();
    let mut again = Sweep::start(given_back);
    let moved = again.advance(chart);
    let (given_back, _record) = again.end();
    (given_back, moved)
}
