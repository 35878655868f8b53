//! Runs the map reader and the drawn floor's rover on maps whose answers are known.
#![tactic(auto)]

ghost use Rattle.std.specs.Prelude.{◌≡◌};
ghost use Rattle.map_format.specs.Answer.{answer};
ghost use Rattle.map_tests.specs.Said.{said_of};

use fault::Fault;
use map_format::drawing::Drawing;

/// A refusal's number and place.
fn told<F: Fault>(fault: &F) -> (u8, usize)
    ensures { result ≡ ((F.Fault.tells fault.now).number, (F.Fault.tells fault.now).place) }
{
    (fault.number(), fault.place())
}

/// What is said of a map: the number of the start's megacell, or the refusal's number and place.
// Two numbers, and no `Refusal`: the tables below stay the rules' own, in which each number has one layer.
type Said = Result<usize, (u8, usize)>;

/// What is said of a map: of an accepted one the number of the start's megacell; of a refused one the refusal's number
/// and place.
fn said(map: &[u8]) -> Said
    ensures { result ≡ said_of (answer map.now) }
{
    match Drawing::read(map) {
        Ok(drawing) => Ok(drawing.start().number()),
        Err(fault) => Err(told(&fault)),
    }
}

#[cfg(test)]
mod tests {
    use super::*;
    use board::heading::Heading;
    use drawn_floor::floor::{DrawnFloor, DrawnRover};
    use drawn_floor::light::Light;
    use rover::meaning::Rover;
    use std::array::from_fn;
    use std::process::Abort;
    use std::test::Fail;

    // each map is answered so
    fn answered(rt: &impl Abort, maps: &[(&[u8], Said)]) {
        for (map, answer) in maps {
            assert!(rt; said(map) == *answer);
        }
    }

    // worked maps; an accepted one says the number of its start
    #[test]
    fn worked_maps(rt: HostRuntime) {
        let maps: [(&[u8], Said); 8] = [
            (b"S\n", Ok(0)),
            (b"S.\n.#\n", Ok(0)),
            (b"..\n.S\n", Ok(33)),
            (b"", Err((2, 0))),
            (b"#\n", Err((6, 2))),
            (b"S..\n..\n", Err((4, 4))),
            (b"S", Err((4, 0))),
            (b".S\nS.\n", Err((6, 3))),
        ];
        answered(&rt, &maps);
    }

    // the first forbidden byte; CR is one
    #[test]
    fn forbidden_bytes(rt: HostRuntime) {
        let maps: [(&[u8], Said); 16] = [
            (b"S..\n.#.\n...\n ", Err((3, 12))),
            (b"S..\t.#.\n...\n", Err((3, 3))),
            (b"S..T.#.\n...\n", Err((3, 3))),
            (b"S..\x80.#.\n...\n", Err((3, 3))),
            (b"S..\xff.#.\n...\n", Err((3, 3))),
            (b"S.\r..\r", Err((3, 2))),
            (b"\r..\n.#.\n...\n", Err((3, 0))),
            (b" ..\n.#.\n...\n", Err((3, 0))),
            (b"SR.\n.#.\n...\n", Err((3, 1))),
            (b"S..\n.#.\n..\x7f\n", Err((3, 10))),
            (b"S..\n.#.\n...\r", Err((3, 11))),
            (b"S..\n.#.\n...@", Err((3, 11))),
            (b"S..\n.\".\n...\n", Err((3, 5))),
            (b".................................?\nS\n", Err((3, 33))),
            (b"S.-\n.#.\n...\n", Err((3, 2))),
            (b"S..\n/#.\n...\n", Err((3, 4))),
        ];
        answered(&rt, &maps);
    }

    // rows of a wrong width or without LF; 32 columns pass
    #[test]
    fn bad_rows(rt: HostRuntime) {
        let maps: [(&[u8], Said); 6] = [
            (b"S..\n.#.\n...", Err((4, 8))),
            (
                b"S\n.\n.\n.\n.\n.\n.\n.\n.\n.\n.\n.\n.\n.\n.\n.\n.\n.\n.\n.\n.\n.\n.\n.\n.\n.\n.\n.\n.\n.\n.\n.\n\n",
                Err((4, 64)),
            ),
            (b"S.\n..\n.\n...\n", Err((4, 6))),
            (b"S.\n\n", Err((4, 3))),
            (b"S................................\n", Err((4, 0))),
            (b"S...............................\n", Ok(0)),
        ];
        answered(&rt, &maps);
    }

    // 32 rows pass, a 33rd does not
    #[test]
    fn rows_and_starts(rt: HostRuntime) {
        let maps: [(&[u8], Said); 5] = [
            (
                b"S\n.\n.\n.\n.\n.\n.\n.\n.\n.\n.\n.\n.\n.\n.\n.\n.\n.\n.\n.\n.\n.\n.\n.\n.\n.\n.\n.\n.\n.\n.\n.\n",
                Ok(0),
            ),
            (
                b".\n.\n.\n.\n.\n.\n.\n.\n.\n.\n.\n.\n.\n.\n.\n.\n.\n.\n.\n.\n.\n.\n.\n.\n.\n.\n.\n.\n.\n.\n.\nS\n",
                Ok(992),
            ),
            (
                b"S\n.\n.\n.\n.\n.\n.\n.\n.\n.\n.\n.\n.\n.\n.\n.\n.\n.\n.\n.\n.\n.\n.\n.\n.\n.\n.\n.\n.\n.\n.\n.\n.\n",
                Err((5, 64)),
            ),
            (
                b"S\n.\n.\n.\n.\n.\n.\n.\n.\n.\n.\n.\n.\n.\n.\n.\n.\n.\n.\n.\n.\n.\n.\n.\n.\n.\n.\n.\n.\n.\n.\n.\n.\n.\n",
                Err((5, 64)),
            ),
            (b"SS\n", Err((6, 1))),
        ];
        answered(&rt, &maps);
    }

    // of several reasons the first counts
    #[test]
    fn first_reason_counts(rt: HostRuntime) {
        let maps: [(&[u8], Said); 5] = [
            (
                b"..S..\r\n......\n......\n......\n......\n......\n......\n......\n......\n......\n.................................\n......\n",
                Err((3, 5)),
            ),
            (
                b"S.S...\n......\n......\n......\n......\n......\n......\n......\n.......\n......\n......\n...\r..\n",
                Err((3, 81)),
            ),
            (
                b"..S...\n......\n......\n......\n\n......\n......\n......\n......\n......\n......\n......\n......\n......\n......\n......\n......\n......\n......\n......\n......\n......\n......\n......\n......\n......\n......\n......\n......\n......\n......\n......\n......\n......\n......\n......\n",
                Err((4, 28)),
            ),
            (
                b"S.S...\n......\n......\n......\n......\n......\n......\n......\n......\n......\n......\n......\n......\n......\n......\n......\n......\n......\n......\n......\n......\n......\n......\n......\n......\n......\n......\n......\n......\n......\n......\n......\n......\n......\n......\n......\n",
                Err((5, 224)),
            ),
            (
                b"..#...\n......\n......\n......\n......\n......\n......\n......\n......\n......\n......\n......\n......\n......\n......\n......\n......\n......\n......\n......\n......\n......\n......\n......\n......\n......\n......\n......\n......\n......\n......\n......\n......\n......\n......\n......\n",
                Err((5, 224)),
            ),
        ];
        answered(&rt, &maps);
    }

    // 32 rows of 32 megacells are 1,056 bytes, and pass; a byte more does not
    #[test]
    fn lengths(rt: HostRuntime) {
        let mut map: [u8; 1057] = from_fn(|at| if at % 33 == 32 { b'\n' } else { b'.' });
        map[1054] = b'S';
        assert!(rt; said(&map[0..1056]) == Ok(1023));
        assert!(rt; said(&map) == Err((2, 0)));
    }

    // the four subcells of a 9 read 112.5 lux, all others are unlit
    #[test]
    fn lamps(rt: HostRuntime) -> Result<(), Fail> {
        let drawing = Drawing::read(b"S9\n")?;
        let mut rover = DrawnRover::new(DrawnFloor { drawing });
        assert!(rt; matches!(rover.read(), Light::Unlit));
        for heading in [Heading::East, Heading::North, Heading::East, Heading::South] {
            rover.step(heading)?;
            assert!(rt; matches!(rover.read(), Light::Lux(level) if level == 112.5));
        }
        Ok(())
    }

    // on rows S. and .#: looks and steps are counted, a refused step is not and leaves the rover where it stands
    #[test]
    fn drive(rt: HostRuntime) -> Result<(), Fail> {
        let drawing = Drawing::read(b"S.\n.#\n")?;
        let mut rover = DrawnRover::new(DrawnFloor { drawing });
        assert!(rt; rover.place().slot() == 65);
        assert!(rt; rover.look(Heading::East) && rover.look(Heading::South));
        assert!(rt; !rover.look(Heading::North) && !rover.look(Heading::West));
        rover.step(Heading::East)?;
        assert!(rt; !rover.look(Heading::South));
        assert!(rt; rover.step(Heading::South).map_err(|fault| told(&fault)) == Err((15, 66)));
        assert!(rt; rover.place().slot() == 66);
        assert!(rt; rover.moves() == 1 && rover.looks() == 5);
        Ok(())
    }
}
