ghost use Rattle.std.specs.Prelude.{◌≡◌, ◌≤◌, length, None, Some, IfOk, MatchResult, replicate, slice_set};
ghost use Rattle.std.specs.Option.{option_map};
ghost use Rattle.board.specs.Places.{slot_of};
ghost use Rattle.chart.specs.Charts.{slot_at, Blank, SameBeyond, TooFew};

use crate::faults::ChartFault;
use crate::slot::Slot;
use board::place::Place;
use std::alloc::{AllocError, Global};

/// The slots of a chart: one for each place of the board.
pub const SLOTS: usize = 4096;

/// The slots of a chart for a kind of reading, all empty; or want of memory.
pub fn chart_of<T: Drop>(heap: Global) -> Result<Vec<Slot<T>>, AllocError>
    ensures { IfOk result (λ v. v.items ≡ replicate 4096 None) }
{
    let mut chart = Vec::new(heap);
    chart.resize_with(SLOTS, || None)?;
    Ok(chart)
}

// Each call asks anew whether the slots are enough, and a type does not know it: a rule of the project, they are lent at
// each call.

/// Refuses slots that are too few for a chart.
pub fn need<T>(slots: &[Slot<T>]) -> Result<(), ChartFault>
    ensures { MatchResult result (λ _. 4096 ≤ length slots.now) (λ e. TooFew (length slots.now) e) }
{
    if slots.len() < SLOTS {
        return Err(ChartFault::Short { slots: slots.len() });
    }
    Ok(())
}

/// Empties the chart: its first 4,096 slots.
pub fn empty<T: Drop>(slots: &mut [Slot<T>]) -> Result<(), ChartFault>
    ensures { MatchResult result
        (λ _. Blank slots.new × SameBeyond slots.old slots.new)
        (λ e. TooFew (length slots.old) e × (slots.new ≡ slots.old)) }
{
    need(slots)?;
    slots[..SLOTS].fill_with(|| None);
    Ok(())
}

/// The reading at a place; none where its slot is empty.
pub fn at<T>(slots: &[Slot<T>], place: Place) -> Result<Option<&T>, ChartFault>
    ensures { MatchResult result
        (λ o. (4096 ≤ length slots.now) × (option_map (λ x. x.now) o ≡ slot_at slots.now place))
        (λ e. TooFew (length slots.now) e) }
{
    need(slots)?;
    Ok(slots[place.slot()].as_ref())
}

/// Puts a reading into the slot of a place.
pub fn put<T: Drop>(slots: &mut [Slot<T>], place: Place, reading: T) -> Result<(), ChartFault>
    ensures { MatchResult result
        (λ _. (4096 ≤ length slots.old) × (slots.new ≡ slice_set slots.old (slot_of place) (Some reading)))
        (λ e. TooFew (length slots.old) e × (slots.new ≡ slots.old)) }
{
    need(slots)?;
    slots[place.slot()] = Some(reading);
    Ok(())
}
