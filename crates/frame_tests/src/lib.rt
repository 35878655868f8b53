//! Runs frames, framed rovers and charts on small floors.
#![tactic(auto)]

#[cfg(test)]
mod tests {
    use board::heading::Heading;
    use board::megacell::Megacell;
    use board::place::Place;
    use chart::slots;
    use drawn_floor::floor::{DrawnFloor, DrawnRover};
    use drawn_floor::light::Light;
    use fault::Fault;
    use fault::layer::Layer;
    use fault::refusal::Refusal;
    use frame::Frame;
    use frame::mirror::Mirror;
    use frame::numbered::Numbered;
    use frame::pair::Pair;
    use frame::turn::Turn;
    use framed::Framed;
    use map_format::drawing::Drawing;
    use rover::faults::RoverFault;
    use rover::meaning::Rover;
    use std::test::Fail;

    // where a frame takes (row, column), as a slot; none off the board
    fn taken<F: Frame>(frame: &F, row: u8, column: u8) -> Option<usize> {
        Some(frame.place(Place::new(row, column)?).slot())
    }

    #[test]
    fn turns(rt: HostRuntime) {
        let many = Turn {
            quarters: 4_000_000_001,
        };
        assert_eq!(rt; taken(&Turn { quarters: 1 }, 1, 1), Some(64 + 62));
        assert_eq!(rt; taken(&Turn { quarters: 2 }, 1, 1), Some(64 * 62 + 62));
        assert_eq!(rt; taken(&Turn { quarters: 3 }, 1, 1), Some(64 * 62 + 1));
        assert_eq!(rt; taken(&many, 1, 1), Some(64 + 62));
        assert_eq!(rt; Turn { quarters: 3 }.heading(Heading::North), Heading::West);
        assert_eq!(rt; taken(&Mirror, 5, 40), Some(64 * 5 + 23));
    }

    // frame 5 mirrors and then makes one quarter turn; frame 8 is none
    #[test]
    fn numbers(rt: HostRuntime) -> Result<(), Fail> {
        let frame = Numbered::try_from(5)?;
        // (1, 1), mirrored to (1, 62), turned to (62, 62)
        assert_eq!(rt; taken(&frame, 1, 1), Some(64 * 62 + 62));
        // east, mirrored to west, turned to north
        assert_eq!(rt; frame.heading(Heading::East), Heading::North);
        let refusal = Numbered::try_from(8).err().map(|fault| fault.refusal());
        assert_eq!(rt; refusal, Some(Refusal::new(1, Layer::Survey, 0)));
        Ok(())
    }

    // a place and a megacell are written under their own names
    #[test]
    fn debug_texts(rt: HostRuntime) -> Result<(), Fail> {
        let place = Place::new(1, 2).ok_or("off the board")?;
        let megacell = Megacell::new(31, 0);
        assert!(rt; format!(in rt.alloc(); "{place:?}")?.as_str() == "Place { row: 1, column: 2 }");
        assert!(rt;
            format!(in rt.alloc(); "{megacell:?}")?.as_str()
                == "Some(Megacell { row: 31, column: 0 })"
        );
        Ok(())
    }

    // one function for every rover: round its megacell counter-clockwise, and back where it was
    fn round<R: Rover>(rover: &mut R) -> Result<usize, RoverFault> {
        for _ in 0..4 {
            rover.step(rover.place().exit().left())?;
        }
        Ok(rover.place().slot())
    }

    // the same function drives a rover, and the rover under three different frames
    #[test]
    fn piles(rt: HostRuntime) -> Result<(), Fail> {
        let drawing = Drawing::read(b"S9\n.#\n")?;
        let mut plain = DrawnRover::new(DrawnFloor { drawing });
        assert_eq!(rt; round(&mut plain)?, 64 + 1);
        let mut pile = Framed {
            below: Framed {
                below: Framed {
                    below: plain,
                    frame: Mirror,
                },
                frame: Turn { quarters: 1 },
            },
            frame: Pair {
                first: Some(Mirror),
                then: Turn { quarters: 2 },
            },
        };
        let start = pile.place().slot();
        assert_eq!(rt; round(&mut pile)?, start);
        assert_eq!(rt; pile.moves(), 8);
        // the side to the lamp is east below: west in the mirror, north after the turn, then mirrored, and turned south
        assert!(rt; pile.look(Heading::South));
        assert!(rt; !pile.look(Heading::North));
        assert_eq!(rt; pile.looks(), 2);
        Ok(())
    }

    // a framed rover's refusal tells its own place and the heading given to it
    #[test]
    fn refusals(rt: HostRuntime) -> Result<(), Fail> {
        let drawing = Drawing::read(b"S\n")?;
        let mut rover = Framed {
            below: DrawnRover::new(DrawnFloor { drawing }),
            frame: Mirror,
        };
        let fault = RoverFault::Closed {
            slot: 64 + 62,
            heading: Heading::West,
        };
        assert_eq!(rt; rover.step(Heading::West), Err(fault));
        assert_eq!(rt; fault.number(), 15);
        assert_eq!(rt; fault.place(), 64 + 62);
        Ok(())
    }

    // a chart of counts, and one of lights
    #[test]
    fn charts(rt: HostRuntime) {
        let mut few = [Some(7u16), None];
        let refused = slots::empty(&mut few).map_err(|fault| fault.refusal());
        assert_eq!(rt; refused, Err(Refusal::new(13, Layer::Chart, 2)));
    }

    #[test]
    fn lights(rt: HostRuntime) -> Result<(), Fail> {
        let drawing = Drawing::read(b"S9\n.#\n")?;
        let rover = DrawnRover::new(DrawnFloor { drawing });
        let mut chart = Vec::new(rt.alloc());
        chart.resize_with(4097, || Some(Light::Lux(1.0)))?;
        slots::empty(chart.as_mut_slice())?;
        slots::put(chart.as_mut_slice(), rover.place(), rover.read())?;
        let reading = slots::at(chart.as_slice(), rover.place())?;
        assert!(rt; matches!(reading, Some(Light::Unlit)));
        assert!(rt; chart.len() == 4097);
        assert!(rt; chart[4096].is_some());
        Ok(())
    }
}
