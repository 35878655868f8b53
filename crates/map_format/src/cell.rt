use crate::digit::Digit;

/// A megacell as a map draws it.
#[derive(Clone, Copy, Debug)]
pub enum Cell {
    Blocked,
    Free,
    /// Free, with a lamp over it that has this digit.
    Lamp(Digit),
}
