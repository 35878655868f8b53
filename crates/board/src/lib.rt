//! The board: four headings, 32 by 32 megacells, and the 64 by 64 subcells, or places, that they are made of.
#![tactic(auto)]

pub mod corner;
pub mod heading;
pub mod megacell;
pub mod place;
pub mod square;
pub mod table;
pub mod theorems;
