//! A chart: 4,096 slots of the caller's memory, one for each place of the board. The slots are lent at each call.
#![tactic(auto)]

pub mod faults;
pub mod slot;
pub mod slots;
