ghost use Rattle.std.specs.Prelude.{◌≡◌};
ghost use Rattle.log_record.specs.Layout.{header_of};

use crate::faults::LogFault;
use board::place::Place;

/// What the first 8 bytes of a log hold.
#[derive(Clone, Copy, Debug)]
pub struct Header {
    /// How many records the log has.
    pub count: u16,
    /// The index of the first record of the chain; 0 where the chain has none.
    // The number that the log has, and no `Option`: an index and its end are one number in the format and in its rules.
    pub first: u16,
    /// Where the rover starts.
    pub start: Place,
}

/// The header of a log; refused where the length is not a log's, or the header not a header.
#[tactic(auto, unfolding(crate::specs::Layout::header_of))]
pub fn read_header(log: &[u8]) -> Result<Header, LogFault>
    ensures { result ≡ header_of log.now }
{
    let [
        count_high,
        count_low,
        first_high,
        first_low,
        row,
        column,
        spare,
        last_spare,
        ..
    ] = log
    else {
        return Err(LogFault::WrongLength);
    };
    let count = u16::from_be_bytes([*count_high, *count_low]);
    if count > 1024 || log.len() != 8 + 16 * count as usize {
        return Err(LogFault::WrongLength);
    }
    if *spare != 0 || *last_spare != 0 {
        return Err(LogFault::BadHeader);
    }
    let start = Place::new(*row, *column).ok_or(LogFault::BadHeader)?;
    Ok(Header {
        count,
        first: u16::from_be_bytes([*first_high, *first_low]),
        start,
    })
}
