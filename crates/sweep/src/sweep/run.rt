ghost use Rattle.std.specs.Prelude.{◌≡◌, ℕ, ◌+◌, ◌<◌, ◌≤◌, true, ◌⊎◌, length, MatchResult};
ghost use Rattle.sweep.specs.Promise.{Letters, Filled};
ghost use Rattle.sweep.specs.Journey.{Journey, Charts};
ghost use Rattle.sweep.specs.Single.{Still, Runs, RunRefuses};

use super::{Ran, Sweep};
use crate::faults::SweepFault;
use chart::slot::Slot;
use chart::slots::need;
use rover::meaning::Rover;

impl<R: Rover> Sweep<R> {
    /// Advances until home or until the tour buffer is full, and writes the letter of each heading from byte 0;
    /// the bytes after the letters keep what they held. An empty buffer or a sweep already home gives no letter.
    ///
    /// Refused where the slots are too few, also where it would write nothing; then nothing is altered.
    pub fn run(
        &mut self,
        slots: &mut [Slot<R::Reading>],
        tour: &mut [u8],
    ) -> Result<Ran, SweepFault>
        ensures done { MatchResult result
            (λ v. Runs R.Rover self.old slots.old tour.old self.new slots.new tour.new v.letters
            × (v.home ≡ self.new.told.home)
            × ((v.letters ≡ length tour.old) ⊎ (v.home ≡ true))
            × (self.old.told.home ≡ true → (v.letters ≡ 0) × Still R.Rover self.old slots.old self.new slots.new))
            (λ e. RunRefuses R.Rover self.old slots.old tour.old self.new slots.new tour.new e) }
        ensures law { (origin : R) (asked : ℕ) → 4096 ≤ length slots.old → Journey R.Rover origin asked self.old →
            Journey R.Rover origin (asked + length tour.old) self.new
            × MatchResult result
            (λ v. (self.new.told.moves ≡ self.old.told.moves + v.letters) × Letters (R.Rover.floor origin) (R.Rover.place origin) self.old.told.moves v.letters tour.new
            × Filled (R.Rover.floor origin) (R.Rover.field origin) (R.Rover.place origin) self.old.told.moves self.new.told.moves slots.old slots.new)
            (λ e. ⊥) }
        ensures chart { (origin : R) (asked : ℕ) → Journey R.Rover origin asked self.old → Charts R.Rover origin self.old slots.old → Charts R.Rover origin self.new slots.new }
        ensures short { (origin : R) (asked : ℕ) → length slots.old < 4096 → Journey R.Rover origin asked self.old → Journey R.Rover origin asked self.new }
    {
        need(slots)?;
        for (letters, byte) in tour.iter_mut().enumerate() {
            if self.told.home {
                return Ok(Ran {
                    letters,
                    home: true,
                });
            }
            let moved = self.advance(slots)?;
            *byte = moved.heading.letter();
        }
        Ok(Ran {
            letters: tour.len(),
            home: self.told.home,
        })
    }
}
