ghost use Rattle.std.specs.Prelude.{◌≡◌};
ghost use Rattle.frame.specs.Skipped.{passed};
ghost use Rattle.frame.specs.Composing.{passed_keeps};

use super::Frame;
use board::heading::Heading;
use board::place::Place;

/// A frame that may be absent: where there is none, places and headings stay.
impl<F: Frame> Frame for Option<F> {
    ghost taken = { λ s p. passed F.Frame.taken s p };

    ghost returned = { λ s p. passed F.Frame.returned s p };

    ghost turned = { λ s h. passed F.Frame.turned s h };

    ghost restored = { λ s h. passed F.Frame.restored s h };

    ghost keeps = { passed_keeps F.Frame.taken F.Frame.returned F.Frame.turned F.Frame.restored F.Frame.keeps };

    fn place(&self, place: Place) -> Place {
        match self {
            Some(frame) => frame.place(place),
            None => place,
        }
    }

    fn place_below(&self, place: Place) -> Place {
        match self {
            Some(frame) => frame.place_below(place),
            None => place,
        }
    }

    fn heading(&self, heading: Heading) -> Heading {
        match self {
            Some(frame) => frame.heading(heading),
            None => heading,
        }
    }

    fn heading_below(&self, heading: Heading) -> Heading {
        match self {
            Some(frame) => frame.heading_below(heading),
            None => heading,
        }
    }
}
