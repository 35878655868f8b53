ghost use Rattle.std.specs.Prelude.{◌≡◌};
ghost use Rattle.board.specs.Headings.{left, right, opposite, heading_number, letter};

use std::fmt;

/// One of the four ways to go. North is towards row 0, west towards column 0.
#[derive(Clone, Copy, Debug, PartialEq, Eq)]
pub enum Heading {
    North,
    East,
    South,
    West,
}

impl Heading {
    /// A quarter turn counter-clockwise.
    #[tactic(auto, unfolding(crate::specs::Headings::left))]
    pub fn left(self) -> Heading
        ensures { result ≡ left self }
    {
        match self {
            Heading::North => Heading::West,
            Heading::East => Heading::North,
            Heading::South => Heading::East,
            Heading::West => Heading::South,
        }
    }

    /// A quarter turn clockwise.
    #[tactic(auto, unfolding(crate::specs::Headings::right))]
    pub fn right(self) -> Heading
        ensures { result ≡ right self }
    {
        match self {
            Heading::North => Heading::East,
            Heading::East => Heading::South,
            Heading::South => Heading::West,
            Heading::West => Heading::North,
        }
    }

    /// Half a turn.
    #[tactic(auto, unfolding(crate::specs::Headings::opposite))]
    pub fn opposite(self) -> Heading
        ensures { result ≡ opposite self }
    {
        match self {
            Heading::North => Heading::South,
            Heading::East => Heading::West,
            Heading::South => Heading::North,
            Heading::West => Heading::East,
        }
    }

    // Methods, and no `From`: a heading has two bytes, its number and its letter.

    /// 0 for north, 1 for east, 2 for south, 3 for west.
    #[tactic(auto, unfolding(crate::specs::Headings::heading_number))]
    pub fn number(self) -> u8
        ensures { result ≡ heading_number self }
    {
        match self {
            Heading::North => 0,
            Heading::East => 1,
            Heading::South => 2,
            Heading::West => 3,
        }
    }

    /// The ASCII letter N, E, S or W.
    #[tactic(auto, unfolding(crate::specs::Headings::letter))]
    pub fn letter(self) -> u8
        ensures { result ≡ letter self }
    {
        match self {
            Heading::North => b'N',
            Heading::East => b'E',
            Heading::South => b'S',
            Heading::West => b'W',
        }
    }
}

/// A heading is written as its letter.
impl fmt::Display for Heading {
    fn fmt<W: fmt::Write>(&self, f: &mut fmt::Formatter<W>) -> fmt::Result {
        f.write_str(match self {
            Heading::North => "N",
            Heading::East => "E",
            Heading::South => "S",
            Heading::West => "W",
        })
    }
}
