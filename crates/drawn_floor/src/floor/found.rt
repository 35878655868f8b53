ghost use Rattle.std.specs.Prelude.{◌≡◌, Some};
ghost use Rattle.board.specs.declared.heading.Heading.TheVariants.{East};
ghost use Rattle.board.specs.Corners.{subcell};
ghost use Rattle.drawn_floor.specs.Floor.{free_at, floor_of, field_of};
ghost use Rattle.drawn_floor.specs.Passing.{both_sides, edges};

use super::DrawnFloor;
use crate::light::Light;
use board::heading::Heading;
use board::megacell::Megacell;
use board::place::Place;
use map_format::cell::Cell;
use terrain::Terrain;

impl DrawnFloor {
    /// Whether a megacell is free.
    fn is_free(&self, megacell: Megacell) -> bool
        ensures { result ≡ free_at self.now.drawing megacell }
    {
        match self.drawing.cell(megacell) {
            Cell::Blocked => false,
            Cell::Free | Cell::Lamp(_) => true,
        }
    }
}

/// The south-east subcell of a megacell.
fn south_east(megacell: Megacell) -> Place
    ensures { result ≡ subcell megacell East }
{
    Place::new(2 * megacell.row() + 1, 2 * megacell.column() + 1).unwrap()
}

impl Terrain for DrawnFloor {
    type Reading = Light;

    ghost floor = { λ s. floor_of s.drawing };

    ghost field = { λ s. field_of s.drawing };

    ghost start = { λ s. Some (subcell s.drawing.start East) };

    ghost sides = { λ s. both_sides s.drawing };

    ghost edge = { λ s. edges s.drawing };

    #[tactic(auto, unfolding(crate::specs::Floor::floor_of))]
    fn is_open(&self, megacell: Megacell, heading: Heading) -> bool {
        self.is_free(megacell)
            && megacell
                .beside(heading)
                .is_some_and(|neighbour| self.is_free(neighbour))
    }

    #[tactic(auto, unfolding(crate::specs::Floor::field_of))]
    fn reading(&self, place: Place) -> Light {
        Light::over(self.drawing.cell(place.megacell()))
    }

    fn start(&self) -> Place {
        south_east(self.drawing.start())
    }
}
