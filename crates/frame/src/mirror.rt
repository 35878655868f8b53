ghost use Rattle.std.specs.Prelude.{◌≡◌};
ghost use Rattle.frame.specs.Frames.{mirrored, flipped};
ghost use Rattle.frame.specs.Mirroring.{mirror_keeps};

use super::Frame;
use board::heading::Heading;
use board::place::Place;

/// The mirror: it takes (r, c) to (r, 63 - c), exchanges east and west, and keeps north and south.
/// It is its own inverse.
#[derive(Clone, Copy, Debug, PartialEq, Eq)]
pub struct Mirror;

fn mirror_place(place: Place) -> Place
    ensures { result ≡ mirrored place }
{
    Place::new(place.row(), 63 - place.column()).unwrap()
}

#[tactic(auto, unfolding(crate::specs::Frames::flipped))]
fn mirror_heading(heading: Heading) -> Heading
    ensures { result ≡ flipped heading }
{
    match heading {
        Heading::North => Heading::North,
        Heading::East => Heading::West,
        Heading::South => Heading::South,
        Heading::West => Heading::East,
    }
}

impl Frame for Mirror {
    ghost taken = { λ _. mirrored };

    ghost returned = { λ _. mirrored };

    ghost turned = { λ _. flipped };

    ghost restored = { λ _. flipped };

    ghost keeps = { λ _. mirror_keeps };

    fn place(&self, place: Place) -> Place {
        mirror_place(place)
    }

    fn place_below(&self, place: Place) -> Place {
        mirror_place(place)
    }

    fn heading(&self, heading: Heading) -> Heading {
        mirror_heading(heading)
    }

    fn heading_below(&self, heading: Heading) -> Heading {
        mirror_heading(heading)
    }
}
