ghost use Rattle.std.specs.Prelude.{◌≡◌, ℕ, ◌+◌, ◌<◌, ◌≤◌, true, false, length, MatchResult};
ghost use Rattle.board.specs.Places.{megacell_of};
ghost use Rattle.sweep.specs.declared.faults.SweepFault.TheVariants.{Home};
ghost use Rattle.sweep.specs.Promise.{NextMove};
ghost use Rattle.sweep.specs.Journey.{Journey, Charts};
ghost use Rattle.sweep.specs.Single.{Refuses, Steps, Aside, Still, Barred, Looks, Finds, ByTable, decided_for};

use super::{Moved, Sweep};
use crate::choice::Choice;
use crate::faults::SweepFault;
use crate::mark::Mark;
use board::heading::Heading;
use board::megacell::Megacell;
use chart::slot::Slot;
use chart::slots::{need, put};
use rover::meaning::Rover;

impl<R: Rover> Sweep<R> {
    /// Makes a step and charts the place entered.
    #[tactic(auto, unfolding(board::specs::Squares::same_square))]
    fn step(
        &mut self,
        heading: Heading,
        slots: &mut [Slot<R::Reading>],
    ) -> Result<Moved, SweepFault>
        requires { 4096 ≤ length slots.old }
        ensures { MatchResult result
            (λ v. (v.heading ≡ heading) × Steps R.Rover self.old slots.old self.new slots.new v.heading v.place × Aside R.Rover self.old self.new)
            (λ e. Barred R.Rover self.old heading e × Still R.Rover self.old slots.old self.new slots.new) }
    {
        self.rover.step(heading)?;
        let place = self.rover.place();
        put(slots, place, self.rover.read())?;
        self.told.moves = self.told.moves.saturating_add(1);
        self.told.home = place == self.start;
        Ok(Moved { heading, place })
    }

    /// Looks at a heading, and counts the look.
    fn look(&mut self, heading: Heading) -> bool
        ensures answer { result ≡ R.Rover.floor self.old.rover (megacell_of (R.Rover.place self.old.rover)) heading }
        ensures does { Looks R.Rover self.old self.new }
    {
        self.told.looks = self.told.looks.saturating_add(1);
        self.rover.look(heading)
    }

    /// Counts a megacell that was entered first, and keeps in which heading its parent lies.
    fn find(&mut self, megacell: Megacell, back: Heading)
        ensures { Finds self.old megacell back self.new }
    {
        self.marks.set(megacell, Mark::Under(back));
        self.told.megacells = self.told.megacells.saturating_add(1);
    }

    /// Makes the next move by the three rules.
    fn make_move(&mut self, slots: &mut [Slot<R::Reading>]) -> Result<Moved, SweepFault>
        requires { 4096 ≤ length slots.old }
        ensures { MatchResult result
            (λ v. Steps R.Rover self.old slots.old self.new slots.new v.heading v.place × ByTable R.Rover self.old self.new v.heading)
            (λ e. Barred R.Rover self.old (decided_for R.Rover self.old).heading e × Still R.Rover self.old slots.old self.new slots.new) }
    {
        let place = self.rover.place();
        let exit = place.exit();
        match self.marks.choose(place) {
            Choice::Cross => self.step(exit, slots),
            Choice::Turn => self.step(exit.left(), slots),
            Choice::Look(other) => {
                if self.look(exit) {
                    let moved = self.step(exit, slots)?;
                    self.find(other, exit.opposite());
                    Ok(moved)
                } else {
                    self.step(exit.left(), slots)
                }
            }
        }
    }

    /// Refuses a sweep that is home already.
    fn need_underway(&self) -> Result<(), SweepFault>
        ensures { MatchResult result (λ _. self.now.told.home ≡ false) (λ e. (self.now.told.home ≡ true) × (e ≡ Home)) }
    {
        if self.told.home {
            return Err(SweepFault::Home);
        }
        Ok(())
    }

    /// One move by the three rules: a step, and the reading there put into the slot of the place entered.
    ///
    /// Refused where the slots are too few, and then where the sweep is home already; a refusal alters nothing.
    /// A sweep that was started is never refused by its rover.
    pub fn advance(&mut self, slots: &mut [Slot<R::Reading>]) -> Result<Moved, SweepFault>
        ensures done { MatchResult result
            (λ v. (4096 ≤ length slots.old) × (self.old.told.home ≡ false) × Steps R.Rover self.old slots.old self.new slots.new v.heading v.place)
            (λ e. Refuses R.Rover self.old (length slots.old) e × Still R.Rover self.old slots.old self.new slots.new) }
        ensures law { (origin : R) (asked : ℕ) → 4096 ≤ length slots.old → Journey R.Rover origin asked self.old →
            Journey R.Rover origin (asked + 1) self.new
            × MatchResult result
            (λ v. (self.old.told.home ≡ false) × NextMove (R.Rover.floor origin) (R.Rover.place origin) self.old.told.moves v.heading v.place)
            (λ e. (self.old.told.home ≡ true) × (e ≡ Home)) }
        ensures chart { (origin : R) (asked : ℕ) → Journey R.Rover origin asked self.old → Charts R.Rover origin self.old slots.old → Charts R.Rover origin self.new slots.new }
        ensures short { (origin : R) (asked : ℕ) → length slots.old < 4096 → Journey R.Rover origin asked self.old → Journey R.Rover origin asked self.new }
    {
        need(slots)?;
        self.need_underway()?;
        self.make_move(slots)
    }
}
