//! A rover seen through a frame is a rover again.
#![tactic(auto)]

ghost use Rattle.std.specs.Prelude.{◌≡◌};
ghost use Rattle.framed.specs.Seen.{seen_floor, seen_field};
ghost use Rattle.framed.specs.Through.{sides_seen, edge_seen};

use board::heading::Heading;
use board::place::Place;
use frame::Frame;
use rover::faults::RoverFault;
use rover::meaning::Rover;

/// The rover below, and the frame through which it is seen.
#[derive(Drop)]
pub struct Framed<R: Rover, F: Frame> {
    pub below: R,
    pub frame: F,
}

/// It stands where the frame takes the rover below. Its floor and field are those below, seen through the frame; a
/// heading that it is given is turned back before it is handed down. Its counts are those below.
impl<R: Rover, F: Frame> Rover for Framed<R, F> {
    type Reading = R::Reading;

    ghost floor = { λ s. seen_floor (F.Frame.returned s.frame) (F.Frame.restored s.frame) (R.Rover.floor s.below) };

    ghost place = { λ s. F.Frame.taken s.frame (R.Rover.place s.below) };

    ghost field = { λ s. seen_field (F.Frame.returned s.frame) (R.Rover.field s.below) };

    ghost moves = { λ s. R.Rover.moves s.below };

    ghost looks = { λ s. R.Rover.looks s.below };

    ghost sides = { λ s.
        sides_seen (F.Frame.taken s.frame) (F.Frame.returned s.frame) (F.Frame.turned s.frame) (F.Frame.restored s.frame)
        (F.Frame.keeps s.frame) (R.Rover.floor s.below) (R.Rover.sides s.below) };

    ghost edge = { λ s.
        edge_seen (F.Frame.taken s.frame) (F.Frame.returned s.frame) (F.Frame.turned s.frame) (F.Frame.restored s.frame)
        (F.Frame.keeps s.frame) (R.Rover.floor s.below) (R.Rover.edge s.below) };

    fn look(&mut self, heading: Heading) -> bool {
        let below = self.frame.heading_below(heading);
        self.below.look(below)
    }

    fn step(&mut self, heading: Heading) -> Result<(), RoverFault> {
        let place = self.frame.place(self.below.place());
        let below = self.frame.heading_below(heading);
        self.below.step(below).map_err(|_| RoverFault::Closed {
            slot: place.slot(),
            heading,
        })
    }

    fn read(&self) -> R::Reading {
        self.below.read()
    }

    fn place(&self) -> Place {
        self.frame.place(self.below.place())
    }

    fn moves(&self) -> u32 {
        self.below.moves()
    }

    fn looks(&self) -> u32 {
        self.below.looks()
    }
}
