//! Frames: ways to lay the board on itself, so that a floor can be seen from another side.
#![tactic(auto)]

ghost use Rattle.std.specs.Prelude.{◌≡◌};
ghost use Rattle.board.specs.declared.heading.Heading.{Heading};
ghost use Rattle.board.specs.Squares.{Place};
ghost use Rattle.frame.specs.Laws.{Keeps};

pub mod faults;
pub mod known;
pub mod mirror;
pub mod numbered;
pub mod pair;
pub mod skippable;
pub mod turn;

use board::heading::Heading;
use board::place::Place;

/// A frame: where each place and each heading goes, and the way back.
pub trait Frame {
    /// where a place is taken
    ghost taken: { Self → Place → Place };

    /// where it is taken back
    ghost returned: { Self → Place → Place };

    /// which way a heading is turned
    ghost turned: { Self → Heading → Heading };

    /// which way it is turned back
    ghost restored: { Self → Heading → Heading };

    /// Where the frame takes a place.
    fn place(&self, place: Place) -> Place
        ensures { result ≡ taken self.now place };

    /// Which place the frame takes here.
    fn place_below(&self, place: Place) -> Place
        ensures { result ≡ returned self.now place };

    /// Which way the frame turns a heading.
    fn heading(&self, heading: Heading) -> Heading
        ensures { result ≡ turned self.now heading };

    /// Which heading the frame turns this way.
    fn heading_below(&self, heading: Heading) -> Heading
        ensures { result ≡ restored self.now heading };

    /// every frame keeps the laws of frames
    ghost keeps: { (f : Self) → Keeps (taken f) (returned f) (turned f) (restored f) };
}
