ghost use Rattle.std.specs.Prelude.{◌≡◌, ◌%◌};
ghost use Rattle.board.specs.Headings.{left, right};
ghost use Rattle.frame.specs.Frames.{quarter as quarter_of, unquarter as unquarter_of, times};
ghost use Rattle.frame.specs.Quartering.{quarters_keep};

use super::Frame;
use board::heading::Heading;
use board::place::Place;

/// Quarter turns clockwise: as many as `quarters` modulo 4.
///
/// One takes (r, c) to (c, 63 - r) and a heading to the one on its right.
#[derive(Clone, Copy, Debug, PartialEq, Eq)]
pub struct Turn {
    pub quarters: u32,
}

fn quarter(place: Place) -> Place
    ensures { result ≡ quarter_of place }
{
    Place::new(place.column(), 63 - place.row()).unwrap()
}

fn unquarter(place: Place) -> Place
    ensures { result ≡ unquarter_of place }
{
    Place::new(63 - place.column(), place.row()).unwrap()
}

impl Turn {
    /// What a step makes of a start, made once for each of its quarter turns.
    fn repeat<T, F: Fn(T) -> T>(&self, step: F, start: T) -> T
        requires { F.IsAlwaysCallable step }
        ensures { (f : T → T) → ((x y : T) → F.post step x y → y ≡ f x) → result ≡ times (self.now.quarters % 4) f start }
    {
        let mut last = start;
        for _ in 0..self.quarters % 4 {
            last = step(last);
        }
        last
    }
}

impl Frame for Turn {
    ghost taken = { λ f. times (f.quarters % 4) quarter_of };

    ghost returned = { λ f. times (f.quarters % 4) unquarter_of };

    ghost turned = { λ f. times (f.quarters % 4) right };

    ghost restored = { λ f. times (f.quarters % 4) left };

    ghost keeps = { λ f. quarters_keep (f.quarters % 4) };

    fn place(&self, place: Place) -> Place {
        self.repeat(quarter, place)
    }

    fn place_below(&self, place: Place) -> Place {
        self.repeat(unquarter, place)
    }

    fn heading(&self, heading: Heading) -> Heading {
        self.repeat(Heading::right, heading)
    }

    fn heading_below(&self, heading: Heading) -> Heading {
        self.repeat(Heading::left, heading)
    }
}
