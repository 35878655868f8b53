use super::Square;
use std::fmt;

/// A place and a megacell are written under these names, a square of another board as a square.
impl<const SIDE: u8> fmt::Debug for Square<SIDE> {
    fn fmt<W: fmt::Write>(&self, f: &mut fmt::Formatter<W>) -> fmt::Result {
        let name = match SIDE {
            64 => "Place",
            32 => "Megacell",
            _ => "Square",
        };
        f.debug_struct(name)
            .field("row", &self.row)
            .field("column", &self.column)
            .finish()
    }
}
