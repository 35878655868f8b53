//! The log reader: it follows the chain of a log's records once, accepts the log or says why not, and finds the
//! record of a megacell in an accepted log.
#![tactic(auto)]

mod chain;
pub mod log;
pub mod records;
pub mod theorems;
mod told;
