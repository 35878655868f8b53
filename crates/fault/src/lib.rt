//! What every refusal of the library tells, whichever layer it comes from.
#![tactic(auto)]

ghost use Rattle.std.specs.Prelude.{◌≡◌};
ghost use Rattle.fault.specs.declared.refusal.Refusal.{Refusal as Told};

pub mod layer;
pub mod refusal;

use layer::Layer;
use refusal::Refusal;

/// Why something is refused. Each fault tells a refusal: its number, its layer and its place.
pub trait Fault {
    /// the refusal that a fault tells
    ghost tells: { Self → Told };

    /// The refusal that it tells.
    fn refusal(&self) -> Refusal
        ensures { result ≡ tells self.now };

    /// The number of the refusal, 1 to 17.
    final fn number(&self) -> u8
        ensures { result ≡ (tells self.now).number }
    {
        self.refusal().number
    }

    /// The layer that refuses.
    final fn layer(&self) -> Layer
        ensures { result ≡ (tells self.now).layer }
    {
        self.refusal().layer
    }

    /// Where, or how much.
    final fn place(&self) -> usize
        ensures { result ≡ (tells self.now).place }
    {
        self.refusal().place
    }
}
