ghost use Rattle.std.specs.Prelude.{◌≡◌, ◌<◌, ◌≤◌, length};
ghost use Rattle.chart.specs.Charts.{Blank, SameBeyond};
ghost use Rattle.sweep.specs.Promise.{SameFrom, Filled};
ghost use Rattle.sweep.specs.Journey.{Journey, Wrote, Story};
ghost use Rattle.sweep.specs.Calls.{Makes, wants, asking};

use crate::call::Call;
use crate::sweep::Sweep;
use chart::slot::Slot;
use rover::meaning::Rover;

// The chart's slots stay a parameter of each call: a rule of the project, a chart is kept in no struct.

/// An advance whose letter goes to byte 0; not asked where there is no such byte. Answers how many letters it wrote.
fn advance_into<R: Rover>(
    sweep: &mut Sweep<R>,
    slots: &mut [Slot<R::Reading>],
    tour: &mut [u8],
) -> usize
    ensures { Makes R.Rover sweep.old slots.old tour.old sweep.new slots.new tour.new result 1 }
{
    if tour.is_empty() {
        return 0;
    }
    match sweep.advance(slots) {
        Ok(moved) => {
            tour[0] = moved.heading.letter();
            1
        }
        Err(_) => 0,
    }
}

/// A run of so many bytes whose letters go to byte 0 and on; where fewer are there it has those. Answers how many
/// letters it wrote.
fn run_into<R: Rover>(
    sweep: &mut Sweep<R>,
    slots: &mut [Slot<R::Reading>],
    tour: &mut [u8],
    bytes: usize,
) -> usize
    ensures { Makes R.Rover sweep.old slots.old tour.old sweep.new slots.new tour.new result bytes }
{
    let part = bytes.min(tour.len());
    match sweep.run(slots, &mut tour[..part]) {
        Ok(ran) => ran.letters,
        Err(_) => 0,
    }
}

/// One call on a sweep. Answers how many letters it wrote.
fn make_call<R: Rover>(
    sweep: &mut Sweep<R>,
    call: Call,
    slots: &mut [Slot<R::Reading>],
    tour: &mut [u8],
) -> usize
    ensures { Makes R.Rover sweep.old slots.old tour.old sweep.new slots.new tour.new result (wants call) }
{
    // Data, and no closures: the promise speaks of the list of calls.
    match call {
        Call::Advance => advance_into(sweep, slots, tour),
        Call::Run(bytes) => run_into(sweep, slots, tour, bytes),
        Call::Ask => {
            let _ = sweep.moves();
            let _ = sweep.looks();
            let _ = sweep.megacells();
            let _ = sweep.home();
            0
        }
    }
}

/// Starts a sweep and makes a list of calls on it, refused ones among them, all on one chart. The letters of
/// all moves, whether advances or runs made them, stand in the tour buffer from byte 0 on, in order; the bytes
/// after them keep what they held. A move that no byte is left for is not asked for: an advance is then not
/// made, and a run has the bytes that are left. In a buffer of 4,096 bytes every call is made as it stands.
pub fn make_calls<R: Rover>(
    rover: R,
    calls: &[Call],
    slots: &mut [Slot<R::Reading>],
    tour: &mut [u8],
) -> Sweep<R>
    ensures promise { Blank slots.old → Story R.Rover rover (asking calls.now (length tour.old)) result slots.new tour.new }
    ensures anyway { 4096 ≤ length slots.old → Journey R.Rover rover (asking calls.now (length tour.old)) result × Wrote R.Rover rover result tour.new × Filled (R.Rover.floor rover) (R.Rover.field rover) (R.Rover.place rover) 0 result.told.moves slots.old slots.new }
    ensures short { length slots.old < 4096 → Journey R.Rover rover 0 result × (slots.new ≡ slots.old) × (tour.new ≡ tour.old) }
    ensures rest { SameFrom result.told.moves tour.old tour.new }
    ensures beyond { SameBeyond slots.old slots.new }
{
    let mut sweep = Sweep::start(rover);
    // A loop, and no fold: each call is lent the bytes that are left, a rule of the project.
    let mut written = 0;
    for call in calls {
        written += make_call(&mut sweep, *call, slots, &mut tour[written..]);
    }
    sweep
}
