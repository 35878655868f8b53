//! The drawn floor: the floor that a map draws, and a meter rover on it.
#![tactic(auto)]

pub mod floor;
pub mod light;
