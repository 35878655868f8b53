ghost use Rattle.std.specs.Prelude.{◌≡◌};
ghost use Rattle.board.specs.Corners.{exit_of};

use super::heading::Heading;

/// Which of the four subcells of its megacell a place is.
#[derive(Clone, Copy, Debug, PartialEq, Eq)]
pub enum Corner {
    NorthWest,
    NorthEast,
    SouthEast,
    SouthWest,
}

impl Corner {
    /// The exit of the corner: the heading by which a tour that turns counter-clockwise inside a megacell
    /// may leave it there.
    #[tactic(auto, unfolding(crate::specs::Corners::exit_of))]
    pub fn exit(self) -> Heading
        ensures { result ≡ exit_of self }
    {
        match self {
            Corner::NorthWest => Heading::West,
            Corner::NorthEast => Heading::North,
            Corner::SouthEast => Heading::East,
            Corner::SouthWest => Heading::South,
        }
    }
}
