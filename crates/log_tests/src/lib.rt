//! Runs the log reader and the log floor's rover on logs whose answers are known.
#![tactic(auto)]

ghost use Rattle.std.specs.Prelude.{◌≡◌, None, Some};
ghost use Rattle.log_format.specs.Log.{refusal};
ghost use Rattle.log_tests.specs.Said.{said_of};

use fault::Fault;
use log_format::log::Log;

/// A refusal's number and place; none of an accepted log.
// Two numbers, and no `Refusal`: the lines below stay the rules' own, in which each number has one layer.
fn said(log: &[u8]) -> Option<(u8, usize)>
    ensures { result ≡ said_of (refusal log.now) }
{
    Log::read(log)
        .err()
        .map(|fault| (fault.number(), fault.place()))
}

#[cfg(test)]
mod tests {
    use super::*;
    use board::corner::Corner;
    use board::heading::Heading;
    use board::megacell::Megacell;
    use board::place::Place;
    use log_floor::floor::{LogFloor, LogRover};
    use log_format::records::Records;
    use log_record::record::Record;
    use rover::meaning::Rover;
    use std::test::Fail;

    // Puts a number into two bytes, the high one first; past the end nothing. The log is an array, so that it is read
    // without memory, and a record has its number: hence the offsets.
    fn put(log: &mut [u8; 16409], at: usize, number: u16) {
        if at < 16408 {
            log[at..at + 2].copy_from_slice(&number.to_be_bytes());
        }
    }

    // A log of 1,024 records, one for each megacell, chained from the last to the first, which names `last` as the
    // next one. The start lies in the megacell of the first record. Its length is 16,392; a byte more is zero.
    fn backwards(count: u16, last: u16) -> [u8; 16409] {
        let mut log = [0; 16409];
        put(&mut log, 0, count);
        put(&mut log, 2, 1024);
        log[4] = 1;
        log[5] = 1;
        for index in 1..1025u16 {
            let at = 16 * index as usize - 8;
            let next = if index == 1 { last } else { index - 1 };
            put(&mut log, at, next);
            log[at + 2] = ((index - 1) / 32) as u8;
            log[at + 3] = ((index - 1) % 32) as u8;
            log[at + 4] = 15;
            put(&mut log, at + 8, index);
        }
        log
    }

    // eight zero bytes; the same with first index 1; one good record whose next is itself; a good log of one record
    #[test]
    fn worked_logs(rt: HostRuntime) {
        assert!(rt; said(b"\x00\x00\x00\x00\x00\x00\x00\x00") == Some((12, 0)));
        assert!(rt; said(b"\x00\x00\x00\x01\x00\x00\x00\x00") == Some((9, 0)));
        assert!(rt;
            said(
                b"\x00\x01\x00\x01\x01\x01\x00\x00\x00\x01\x00\x00\x00\x00\x00\x00\x00\x00\x00\x00\x00\x00\x00\x00",
            ) == Some((11, 1))
        );
        assert!(rt;
            said(
                b"\x00\x01\x00\x01\x01\x01\x00\x00\x00\x00\x00\x00\x00\x00\x00\x00\x00\x00\x00\x00\x00\x00\x00\x00",
            ) == None
        );
    }

    // 1,024 records in any order are read to the end; one more, or one byte more, is refused
    #[test]
    fn long_logs(rt: HostRuntime) {
        assert!(rt; said(&backwards(1024, 0)[0..16392]) == None);
        assert!(rt; said(&backwards(1024, 1)[0..16392]) == Some((11, 1)));
        assert!(rt; said(&backwards(1024, 1024)[0..16392]) == Some((11, 1024)));
        assert!(rt; said(&backwards(1024, 1025)[0..16392]) == Some((9, 1)));
        assert!(rt; said(&backwards(1024, 0)[0..16393]) == Some((7, 0)));
        assert!(rt; said(&backwards(1024, 0)[0..16391]) == Some((7, 0)));
        assert!(rt; said(&backwards(1023, 0)[0..16392]) == Some((7, 0)));
        assert!(rt; said(&backwards(1025, 0)[0..16408]) == Some((7, 0)));
    }

    // The north-west count of a megacell's record.
    fn count_of(log: &Log<'_>, row: u8, column: u8) -> Option<u16> {
        let record = log.record(Megacell::new(row, column)?)?;
        Some(record.count(Corner::NorthWest))
    }

    // the first record of the chain, one on the way, and the last
    #[test]
    fn along_the_chain(rt: HostRuntime) -> Result<(), Fail> {
        let bytes = backwards(1024, 0);
        let log = Log::read(&bytes[0..16392])?;
        assert!(rt; count_of(&log, 31, 31) == Some(1024));
        assert!(rt; count_of(&log, 16, 0) == Some(513));
        assert!(rt; count_of(&log, 0, 0) == Some(1));
        Ok(())
    }

    // Three records, start (1, 1). The second is the first of the chain: megacell (0, 1), which tells its north and west
    // sides open. The first is the last: megacell (0, 0), with the sides given. The third is off the chain, and no
    // record may be like it.
    fn two_records(sides: u8) -> [u8; 56] {
        let mut log =
            *b"\x00\x03\x00\x02\x01\x01\x00\x00\x00\x00\x00\x00\x00\x00\x00\x00\x00\x04\x00\x08\x00\x0c\x00\x10\x00\x01\x00\x01\x09\x00\x00\x00\x01\x00\x00\x00\x02\x01\xff\xff\x09\x09\x63\x63\x63\x09\x09\x09\x09\x09\x09\x09\x09\x09\x09\x09";
        log[12] = sides;
        log
    }

    // Two steps of any rover; whether both were accepted.
    fn two_steps<R: Rover>(rover: &mut R, first: Heading, second: Heading) -> bool {
        rover.step(first).is_ok() && rover.step(second).is_ok()
    }

    // a side told open from both its megacells is open, and the counts are read by the corner
    #[test]
    fn rover_on_a_log(rt: HostRuntime) -> Result<(), Fail> {
        let bytes = two_records(2);
        let log = Log::read(&bytes)?;
        let mut rover = LogRover::new(LogFloor { log });
        assert!(rt; rover.place().slot() == 65 && rover.moves() == 0 && rover.looks() == 0);
        assert!(rt; rover.read() == 16);
        assert!(rt; rover.look(Heading::East) && !rover.look(Heading::South));
        assert!(rt; two_steps(&mut rover, Heading::East, Heading::North));
        assert!(rt; rover.place().slot() == 2 && rover.read() == 256);
        assert!(rt; !rover.look(Heading::North));
        assert!(rt; rover.moves() == 2 && rover.looks() == 3);
        Ok(())
    }

    // records that are no log's: they tell of no megacell, and name a start
    #[derive(Drop)]
    struct Untold {
        start: Place,
    }

    impl Records for Untold {
        ghost told = { λ _ _. None };

        ghost start = { λ s. Some s.start };

        fn record(&self, _megacell: Megacell) -> Option<Record> {
            None
        }

        fn start(&self) -> Place {
            self.start
        }
    }

    // whoever has records of his own has a rover on them
    #[test]
    fn rover_on_other_records(rt: HostRuntime) -> Result<(), Fail> {
        let start = Place::new(3, 5).ok_or("off the board")?;
        let mut rover = LogRover::new(LogFloor {
            log: Untold { start },
        });
        assert!(rt; rover.place() == start && rover.read() == 0);
        assert!(rt; !rover.look(Heading::East));
        assert!(rt; two_steps(&mut rover, Heading::North, Heading::West));
        assert!(rt; rover.place().slot() == 2 * 64 + 4 && rover.moves() == 2 && rover.looks() == 1);
        Ok(())
    }

    // told open from (0, 1) alone, the side is closed, and a step across is refused where it stands
    #[test]
    fn one_word(rt: HostRuntime) -> Result<(), Fail> {
        let bytes = two_records(13);
        let log = Log::read(&bytes)?;
        let mut rover = LogRover::new(LogFloor { log });
        assert!(rt; !rover.look(Heading::East));
        match rover.step(Heading::East) {
            Ok(()) => return Err(Fail::new("an open side")),
            Err(fault) => assert!(rt; fault.number() == 15 && fault.place() == 65),
        }
        assert!(rt; rover.place().slot() == 65 && rover.moves() == 0 && rover.looks() == 1);
        Ok(())
    }
}
