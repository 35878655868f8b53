use crate::marks::Marks;
use board::heading::Heading;
use board::place::Place;
use rover::meaning::Rover;

/// A sweep under way. It owns its rover, so that nothing else drives it.
// That its history is that of a rover `origin` stands in the contract of each call, and not in the type: a ghost field holds
// a fact and no data, so it could say that there is such a rover, and not which.
pub struct Sweep<R: Rover> {
    rover: R,
    start: Place,
    marks: Marks,
    told: Record,
}

/// A move that was made: its heading, and the place that it entered.
#[derive(Clone, Copy, Debug, PartialEq, Eq)]
pub struct Moved {
    pub heading: Heading,
    pub place: Place,
}

/// What a run made: how many letters it wrote, one for each move, and whether the sweep is home.
#[derive(Clone, Copy, Debug, PartialEq, Eq)]
pub struct Ran {
    pub letters: usize,
    pub home: bool,
}

/// What a sweep tells at its end: its moves, its looks, its old megacells, and whether it came home.
#[derive(Clone, Copy, Debug, PartialEq, Eq)]
pub struct Record {
    pub moves: u32,
    pub looks: u32,
    pub megacells: u32,
    pub home: bool,
}

mod advance;
mod questions;
mod run;
mod start;
