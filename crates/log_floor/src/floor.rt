use log_format::records::Records;
use terrain::rover_on::RoverOn;

/// The floor that records tell of, those of a log for one. Its readings are their counts, in quarters of a lux.
#[derive(Drop)]
pub struct LogFloor<L: Records> {
    pub log: L,
}

/// A meter rover on the floor that records tell of. It starts where they say; those of a log, where its header says.
pub type LogRover<L> = RoverOn<LogFloor<L>>;

pub mod found;
