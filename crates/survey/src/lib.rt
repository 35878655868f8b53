//! The survey of a floor: one run over an emptied chart, and the sheet of it.
#![tactic(auto)]

pub mod any_rover;
mod drive;
pub mod faults;
pub mod log;
pub mod map;
