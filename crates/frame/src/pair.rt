ghost use Rattle.std.specs.Prelude.{◌≡◌};
ghost use Rattle.frame.specs.Composing.{both_keep};

use super::Frame;
use board::heading::Heading;
use board::place::Place;

/// A frame followed by another.
#[derive(Clone, Copy, Debug, PartialEq, Eq)]
pub struct Pair<F, G> {
    pub first: F,
    pub then: G,
}

impl<F: Frame, G: Frame> Frame for Pair<F, G> {
    ghost taken = { λ s p. G.Frame.taken s.then (F.Frame.taken s.first p) };

    ghost returned = { λ s p. F.Frame.returned s.first (G.Frame.returned s.then p) };

    ghost turned = { λ s h. G.Frame.turned s.then (F.Frame.turned s.first h) };

    ghost restored = { λ s h. F.Frame.restored s.first (G.Frame.restored s.then h) };

    ghost keeps = { λ s. both_keep (F.Frame.keeps s.first) (G.Frame.keeps s.then) };

    fn place(&self, place: Place) -> Place {
        self.then.place(self.first.place(place))
    }

    fn place_below(&self, place: Place) -> Place {
        self.first.place_below(self.then.place_below(place))
    }

    fn heading(&self, heading: Heading) -> Heading {
        self.then.heading(self.first.heading(heading))
    }

    fn heading_below(&self, heading: Heading) -> Heading {
        self.first.heading_below(self.then.heading_below(heading))
    }
}
