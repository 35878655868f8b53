ghost use Rattle.std.specs.Prelude.{◌≡◌, ◌||◌, Some};
ghost use Rattle.board.specs.Places.{megacell_of};
ghost use Rattle.board.specs.Squares.{same_square};

use super::RoverOn;
use crate::Terrain;
use board::heading::Heading;
use board::place::Place;
use rover::faults::RoverFault;
use rover::meaning::Rover;

impl<T: Terrain> RoverOn<T> {
    /// The rover of a terrain, where the terrain has its start, before its first step and look.
    pub fn new(terrain: T) -> RoverOn<T>
        ensures terrain { result.terrain ≡ terrain }
        ensures place { T.Terrain.start terrain ≡ Some result.place }
        ensures moves { result.moves ≡ 0 }
        ensures looks { result.looks ≡ 0 }
    {
        let place = terrain.start();
        RoverOn {
            terrain,
            place,
            moves: 0,
            looks: 0,
        }
    }

    /// Whether a step at a heading leads to the next place there.
    #[tactic(auto, unfolding(board::specs::Squares::same_square))]
    fn is_passable(&self, next: Place, heading: Heading) -> bool
        ensures { result ≡ (same_square (megacell_of next) (megacell_of self.now.place) || T.Terrain.floor self.now.terrain (megacell_of self.now.place) heading) }
    {
        next.megacell() == self.place.megacell()
            || self.terrain.is_open(self.place.megacell(), heading)
    }
}

impl<T: Terrain> Rover for RoverOn<T> {
    type Reading = T::Reading;

    ghost floor = { λ s. T.Terrain.floor s.terrain };

    ghost place = { λ s. s.place };

    ghost field = { λ s. T.Terrain.field s.terrain };

    ghost moves = { λ s. s.moves };

    ghost looks = { λ s. s.looks };

    ghost sides = { λ s. T.Terrain.sides s.terrain };

    ghost edge = { λ s. T.Terrain.edge s.terrain };

    fn look(&mut self, heading: Heading) -> bool {
        self.looks = self.looks.saturating_add(1);
        self.terrain.is_open(self.place.megacell(), heading)
    }

    fn step(&mut self, heading: Heading) -> Result<(), RoverFault> {
        let slot = self.place.slot();
        match self.place.beside(heading) {
            Some(next) if self.is_passable(next, heading) => {
                self.place = next;
                self.moves = self.moves.saturating_add(1);
                Ok(())
            }
            _ => Err(RoverFault::Closed { slot, heading }),
        }
    }

    fn read(&self) -> T::Reading {
        self.terrain.reading(self.place)
    }

    fn place(&self) -> Place {
        self.place
    }

    fn moves(&self) -> u32 {
        self.moves
    }

    fn looks(&self) -> u32 {
        self.looks
    }
}
