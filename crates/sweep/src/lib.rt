//! The sweep: it drives a rover over all of its ground, each subcell once, and back to the start.
#![tactic(auto)]

pub mod call;
pub mod calls;
mod choice;
pub mod faults;
mod mark;
mod marks;
pub mod sweep;
