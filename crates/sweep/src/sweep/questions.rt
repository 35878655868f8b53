ghost use Rattle.std.specs.Prelude.{◌≡◌, ℕ, ◌*◌, min, true};
ghost use Rattle.tour.specs.History.{old};
ghost use Rattle.tour.specs.Ground.{Ground, Number};
ghost use Rattle.tour.specs.Tour.{visited, tour_looks, Whole};
ghost use Rattle.sweep.specs.Journey.{Journey};

use super::Sweep;
use rover::meaning::Rover;

impl<R: Rover> Sweep<R> {
    /// The moves made so far.
    pub fn moves(&self) -> u32
        ensures is { result ≡ self.now.told.moves }
        ensures law { (origin : R) (asked : ℕ) → Journey R.Rover origin asked self.now → ((k : ℕ) → Number (Ground (R.Rover.floor origin) (R.Rover.place origin)) k → result ≡ min asked (4 * k)) }
    {
        self.told.moves
    }

    /// The looks made so far.
    pub fn looks(&self) -> u32
        ensures is { result ≡ self.now.told.looks }
        ensures law { (origin : R) (asked : ℕ) → Journey R.Rover origin asked self.now → result ≡ tour_looks (R.Rover.floor origin) (R.Rover.place origin) self.now.told.moves }
    {
        self.told.looks
    }

    /// How many megacells are old: the start's, and those with an entered subcell.
    pub fn megacells(&self) -> u32
        ensures is { result ≡ self.now.told.megacells }
        ensures law { (origin : R) (asked : ℕ) → Journey R.Rover origin asked self.now → Number (λ m. old (R.Rover.place origin) (visited (R.Rover.floor origin) (R.Rover.place origin) self.now.told.moves) m ≡ true) result }
    {
        self.told.megacells
    }

    /// Whether the sweep is home: it has entered every subcell of its ground, the start as the last.
    pub fn home(&self) -> bool
        ensures is { result ≡ self.now.told.home }
        ensures law { (origin : R) (asked : ℕ) → Journey R.Rover origin asked self.now → (result ≡ true → Whole (R.Rover.floor origin) (R.Rover.place origin) self.now.told.moves) × (Whole (R.Rover.floor origin) (R.Rover.place origin) self.now.told.moves → result ≡ true) }
    {
        self.told.home
    }
}
