ghost use Rattle.std.specs.Prelude.{◌≡◌};
ghost use Rattle.log_record.specs.Layout.{recorded, record_at};
ghost use Rattle.log_record.specs.Tells.{opens, count_at};

use board::corner::Corner;
use board::heading::Heading;
use board::megacell::Megacell;

/// What a log tells of one megacell.
#[derive(Clone, Copy, Debug)]
pub struct Record {
    /// The index of the next record of the chain; 0 where it ends.
    pub next: u16,
    /// The megacell told of.
    pub megacell: Megacell,
    /// The open sides: the bit of value 2 to the power h for the heading with number h.
    // The byte that the log has: `opens` reads it.
    pub sides: u8,
    /// The counts read in the four subcells, in quarters of a lux.
    pub north_west: u16,
    pub north_east: u16,
    pub south_west: u16,
    pub south_east: u16,
}

/// The record in these 16 bytes; none where they are not 16, or hold no record.
fn read_record(bytes: &[u8]) -> Option<Record>
    ensures { result ≡ recorded bytes.now }
{
    let [
        next_high,
        next_low,
        row,
        column,
        sides,
        0,
        0,
        0,
        nw_high,
        nw_low,
        ne_high,
        ne_low,
        sw_high,
        sw_low,
        se_high,
        se_low,
    ] = bytes
    else {
        return None;
    };
    if *sides > 15 {
        return None;
    }
    let megacell = Megacell::new(*row, *column)?;
    Some(Record {
        next: u16::from_be_bytes([*next_high, *next_low]),
        megacell,
        sides: *sides,
        north_west: u16::from_be_bytes([*nw_high, *nw_low]),
        north_east: u16::from_be_bytes([*ne_high, *ne_low]),
        south_west: u16::from_be_bytes([*sw_high, *sw_low]),
        south_east: u16::from_be_bytes([*se_high, *se_low]),
    })
}

/// Record `index` of a log, of which the first is 1; none where the bytes are not there, or hold no record.
#[tactic(auto, using(crate::proofs::Records::missing, crate::proofs::Records::there))]
pub fn record_at(log: &[u8], index: u16) -> Option<Record>
    ensures { result ≡ record_at log.now index }
{
    if index == 0 {
        return None;
    }
    let end = 8 + 16 * index as usize;
    read_record(log.get(end - 16..end)?)
}

impl Record {
    /// Whether the record tells the side at a heading open.
    #[tactic(auto, unfolding(crate::specs::Tells::opens, board::specs::Headings::heading_number))]
    pub fn opens(&self, heading: Heading) -> bool
        ensures { result ≡ opens self.now heading }
    {
        (self.sides >> heading.number()) % 2 == 1
    }

    /// The count read in one of the four subcells.
    #[tactic(auto, unfolding(crate::specs::Tells::count_at))]
    pub fn count(&self, corner: Corner) -> u16
        ensures { result ≡ count_at self.now corner }
    {
        match corner {
            Corner::NorthWest => self.north_west,
            Corner::NorthEast => self.north_east,
            Corner::SouthEast => self.south_east,
            Corner::SouthWest => self.south_west,
        }
    }
}
