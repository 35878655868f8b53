ghost use Rattle.std.specs.Prelude.{◌≡◌, ℕ, MatchResult};
ghost use Rattle.board.specs.Squares.{Place};
ghost use Rattle.board.specs.Floors.{Floor, SameFromBoth, ClosedAtEdge, Passes};
ghost use Rattle.board.specs.Places.{megacell_of, slot_of};
ghost use Rattle.rover.specs.declared.faults.RoverFault.TheVariants.{Closed};
ghost use Rattle.rover.specs.Drive.{counted, Blocked};

use crate::faults::RoverFault;
use board::heading::Heading;
use board::place::Place;

/// A meter rover: it stands on a floor, steps from subcell to subcell, and reads a field at each place.
///
/// Its five ghost members are all that it means. Floor and field stay as they are, whatever is called.
pub trait Rover {
    /// What it reads. A reading is stored, and a stored one is replaced: it has to be droppable, and no more.
    type Reading: Drop;

    /// which sides of megacells are open
    ghost floor: { Self → Floor };

    /// where it stands
    ghost place: { Self → Place };

    /// the reading at each place
    ghost field: { Self → Place → Self.Reading };

    /// the steps made; the count stays at 4,294,967,295 once there
    ghost moves: { Self → ℕ };

    /// the looks made; the count stays there likewise
    ghost looks: { Self → ℕ };

    /// Whether the side at a heading of the megacell stood in is open.
    fn look(&mut self, heading: Heading) -> bool
        ensures answer { result ≡ floor self.old (megacell_of (place self.old)) heading }
        ensures counts { looks self.new ≡ counted (looks self.old) }
        ensures stays { (floor self.new ≡ floor self.old) × (place self.new ≡ place self.old) × (field self.new ≡ field self.old) × (moves self.new ≡ moves self.old) };

    /// One step: it is made if the next subcell belongs to the megacell stood in, or if the side between is open.
    fn step(&mut self, heading: Heading) -> Result<(), RoverFault>
        ensures done { MatchResult result
            (λ _. Passes (floor self.old) (place self.old) heading (place self.new) × (moves self.new ≡ counted (moves self.old)))
            (λ e. Blocked (floor self.old) (place self.old) heading × (e ≡ Closed (slot_of (place self.old)) heading) × (place self.new ≡ place self.old) × (moves self.new ≡ moves self.old)) }
        ensures stays { (floor self.new ≡ floor self.old) × (field self.new ≡ field self.old) × (looks self.new ≡ looks self.old) };

    /// The field at the place stood on.
    fn read(&self) -> Self::Reading
        ensures { result ≡ field self.now (place self.now) };

    /// Where it stands.
    fn place(&self) -> Place
        ensures { result ≡ place self.now };

    /// The steps made.
    fn moves(&self) -> u32
        ensures { result ≡ moves self.now };

    /// The looks made.
    fn looks(&self) -> u32
        ensures { result ≡ looks self.now };

    ghost sides: { (s : Self) → SameFromBoth (floor s) };

    ghost edge: { (s : Self) → ClosedAtEdge (floor s) };
}
