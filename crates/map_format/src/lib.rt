//! The map reader. A map draws a floor as rows of bytes, each row ended by LF: `#` is a blocked megacell;
//! `.`, `S` and the digits `0` to `9` are free ones. The rover starts in `S`, and a digit is a lamp.
#![tactic(auto)]

mod bytes;
pub mod cell;
mod cells;
pub mod digit;
pub mod drawing;
pub mod faults;
mod rows;
pub mod theorems;
