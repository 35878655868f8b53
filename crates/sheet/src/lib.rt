//! The sheet that a sweep leaves, and the line that a refusal leaves, as text in a lent buffer.
#![tactic(auto)]

mod content;
pub mod faults;
pub mod layout;
mod letters;
mod lines;
mod text;
