//! Runs the sweep on small floors, a full board, a comb and a log, under frames too.
#![tactic(auto)]

#[cfg(test)]
mod tests {
    use board::heading::Heading;
    use chart::slots::chart_of;
    use drawn_floor::floor::{DrawnFloor, DrawnRover};
    use fault::Fault;
    use fault::layer::Layer;
    use fault::refusal::Refusal;
    use frame::Frame;
    use frame::mirror::Mirror;
    use frame::turn::Turn;
    use framed::Framed;
    use log_floor::floor::{LogFloor, LogRover};
    use log_format::log::Log;
    use map_format::drawing::Drawing;
    use rover::meaning::Rover;
    use std::alloc::Global;
    use std::process::Abort;
    use std::test::Fail;
    use sweep::call::Call;
    use sweep::calls::make_calls;
    use sweep::sweep::{Record, Sweep};

    // the record of one whole run of any rover
    fn swept<R: Rover + Drop>(rt: &impl Abort, heap: Global, rover: R) -> Result<Record, Fail> {
        let mut chart = chart_of(heap)?;
        let mut tour = vec![in heap; 0u8; 4096]?;
        let mut sweep = Sweep::start(rover);
        let ran = sweep.run(chart.as_mut_slice(), tour.as_mut_slice());
        let (_rover, record) = sweep.end();
        let ran = ran?;
        assert_eq!(rt; ran.letters, record.moves as usize);
        assert_eq!(rt; ran.home, record.home);
        Ok(record)
    }

    fn tells(rt: &impl Abort, record: Record, moves: u32, looks: u32, megacells: u32) {
        let wanted = Record {
            moves,
            looks,
            megacells,
            home: true,
        };
        assert_eq!(rt; record, wanted);
    }

    fn drawn(map: &[u8]) -> Result<DrawnRover, Fail> {
        let drawing = Drawing::read(map)?;
        Ok(DrawnRover::new(DrawnFloor { drawing }))
    }

    #[test]
    fn small_floors(rt: HostRuntime) -> Result<(), Fail> {
        tells(&rt, swept(&rt, rt.alloc(), drawn(b"S\n")?)?, 4, 2, 1);
        tells(&rt, swept(&rt, rt.alloc(), drawn(b"S.\n")?)?, 8, 4, 2);
        tells(&rt, swept(&rt, rt.alloc(), drawn(b"S.\n.#\n")?)?, 12, 6, 3);
        Ok(())
    }

    // 32 rows of 32 free megacells
    #[test]
    fn full_board(rt: HostRuntime) -> Result<(), Fail> {
        let mut map = Vec::new(rt.alloc());
        for row in 0..32 {
            for column in 0..32 {
                map.push(if row == 17 && column == 9 { b'S' } else { b'.' })?;
            }
            map.push(b'\n')?;
        }
        let record = swept(&rt, rt.alloc(), drawn(map.as_slice())?)?;
        assert!(rt; record.home);
        assert_eq!(rt; record.moves, 4096);
        assert_eq!(rt; record.megacells, 1024);
        assert!(rt; record.looks <= 3 * 1024 + 1);
        Ok(())
    }

    // a comb of 4 teeth: a back of 7 megacells, and teeth of 3 below it at every other one
    #[test]
    fn comb(rt: HostRuntime) -> Result<(), Fail> {
        let map = b".......\n.#.#.#.\n.#.#.#.\n.#S#.#.\n";
        let plain = swept(&rt, rt.alloc(), drawn(map)?)?;
        assert!(rt; plain.home);
        assert_eq!(rt; plain.moves, 4 * 19);
        assert_eq!(rt; plain.megacells, 19);
        let framed = swept(
            &rt,
            rt.alloc(),
            Framed {
                below: Framed {
                    below: drawn(map)?,
                    frame: Mirror,
                },
                frame: Turn { quarters: 3 },
            },
        )?;
        assert!(rt; framed.home);
        assert_eq!(rt; framed.moves, 4 * 19);
        assert_eq!(rt; framed.megacells, 19);
        Ok(())
    }

    // two records that tell the side between them open, and all others closed; the start is in the western one
    #[test]
    fn log(rt: HostRuntime) -> Result<(), Fail> {
        let bytes = [
            0, 2, 0, 1, 3, 5, 0, 0, //
            0, 2, 1, 2, 2, 0, 0, 0, 0, 1, 0, 2, 0, 3, 0, 4, //
            0, 0, 1, 3, 8, 0, 0, 0, 0, 5, 0, 6, 0, 7, 0, 8,
        ];
        let log = Log::read(&bytes)?;
        let plain = LogRover::new(LogFloor { log });
        tells(&rt, swept(&rt, rt.alloc(), plain)?, 8, 7, 2);
        let framed = Framed {
            below: LogRover::new(LogFloor { log }),
            frame: Turn { quarters: 1 },
        };
        let record = swept(&rt, rt.alloc(), framed)?;
        assert!(rt; record.home);
        assert_eq!(rt; record.moves, 8);
        assert_eq!(rt; record.megacells, 2);
        Ok(())
    }

    // home, an advance is refused with 14 at place 0
    #[test]
    fn no_move_at_home(rt: HostRuntime) -> Result<(), Fail> {
        let mut chart = chart_of(rt.alloc())?;
        let mut tour = [0u8; 8];
        let mut sweep = Sweep::start(drawn(b"S\n")?);
        let ran = sweep.run(chart.as_mut_slice(), &mut tour);
        let again = sweep.advance(chart.as_mut_slice());
        let (_rover, record) = sweep.end();
        assert!(rt; ran?.home);
        assert_eq!(rt; record.moves, 4);
        let refused = again.err().map(|fault| fault.refusal());
        assert_eq!(rt; refused, Some(Refusal::new(14, Layer::Sweep, 0)));
        Ok(())
    }

    // a list of calls writes the letters of all its moves in order
    #[test]
    fn calls(rt: HostRuntime) -> Result<(), Fail> {
        let mut chart = chart_of(rt.alloc())?;
        let mut tour = vec![in rt.alloc(); b'-'; 9]?;
        let calls = [
            Call::Advance,
            Call::Ask,
            Call::Run(2),
            Call::Advance,
            Call::Run(100),
            Call::Advance,
        ];
        let sweep = make_calls(
            drawn(b"S.\n")?,
            &calls,
            chart.as_mut_slice(),
            tour.as_mut_slice(),
        );
        let (_rover, record) = sweep.end();
        tells(&rt, record, 8, 4, 2);
        assert!(rt; tour.as_slice() == b"EENWWWSE-".as_slice());
        Ok(())
    }
}
