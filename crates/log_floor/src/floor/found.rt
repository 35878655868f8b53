ghost use Rattle.std.specs.Prelude.{◌≡◌};
ghost use Rattle.log_floor.specs.Told.{told_open, told_beside, floor_of, field_of};
ghost use Rattle.log_floor.specs.Passing.{same_from_both, closed_at_edge};

use super::LogFloor;
use board::heading::Heading;
use board::megacell::Megacell;
use board::place::Place;
use log_format::records::Records;
use terrain::Terrain;

impl<L: Records> LogFloor<L> {
    /// Whether a megacell has a record, and its record tells the side at a heading open.
    fn told_open(&self, megacell: Megacell, heading: Heading) -> bool
        ensures { result ≡ told_open (L.Records.told self.now.log megacell) heading }
    {
        self.log
            .record(megacell)
            .is_some_and(|record| record.opens(heading))
    }

    /// The same of a neighbour, where there is one: the heading is the one that leads to it.
    fn told_beside(&self, neighbour: Option<Megacell>, heading: Heading) -> bool
        ensures { result ≡ told_beside (L.Records.told self.now.log) neighbour heading }
    {
        // By cases: with `is_some_and` the proof did not close.
        match neighbour {
            Some(megacell) => self.told_open(megacell, heading.opposite()),
            None => false,
        }
    }
}

impl<L: Records> Terrain for LogFloor<L> {
    type Reading = u16;

    ghost floor = { λ s. floor_of (L.Records.told s.log) };

    ghost field = { λ s. field_of (L.Records.told s.log) };

    ghost start = { λ s. L.Records.start s.log };

    ghost sides = { λ s. same_from_both (L.Records.told s.log) };

    ghost edge = { λ s. closed_at_edge (L.Records.told s.log) };

    #[tactic(auto, unfolding(crate::specs::Told::floor_of))]
    fn is_open(&self, megacell: Megacell, heading: Heading) -> bool {
        self.told_open(megacell, heading) && self.told_beside(megacell.beside(heading), heading)
    }

    #[tactic(auto, unfolding(crate::specs::Told::field_of))]
    fn reading(&self, place: Place) -> u16 {
        self.log
            .record(place.megacell())
            .map_or(0, |record| record.count(place.corner()))
    }

    fn start(&self) -> Place {
        self.log.start()
    }
}
