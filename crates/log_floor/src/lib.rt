//! The floor that a log tells of, and a meter rover on it. The log stays lent.
#![tactic(auto)]

pub mod floor;
pub mod theorems;
