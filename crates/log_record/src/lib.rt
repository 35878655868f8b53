//! The bytes of a log: its header, its records, and why a log is refused. A log is written by a rover that was
//! driven by hand; it has a record for each megacell that was visited.
#![tactic(auto)]

pub mod faults;
pub mod header;
pub mod record;
