//! What a meter rover is: all that the code above it may know.
#![tactic(auto)]

pub mod faults;
pub mod meaning;
