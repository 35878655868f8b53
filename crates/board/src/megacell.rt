use crate::square::Square;

/// A square of two by two subcells. The board is 32 by 32 of them: a row and a column, each 0 to 31.
pub type Megacell = Square<32>;
