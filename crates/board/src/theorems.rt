ghost use Rattle.std.specs.Prelude.{◌≡◌, ℕ};
ghost use Rattle.std.specs.Cmp.{IsPartialEquivalence};
ghost use Rattle.board.specs.declared.heading.Heading.{Heading as AnyHeading};
ghost use Rattle.board.specs.Headings.{same_heading};
ghost use Rattle.board.specs.Squares.{Megacell as AnyMegacell, Place as AnyPlace, same_square};
ghost use Rattle.board.specs.Turning.{ExitsGoAlong, TurnsByNumber};

use crate::heading::Heading;
use crate::megacell::Megacell;
use crate::place::Place;

/// Two headings are equal when they have the same number, and two megacells or two places when both numbers are the same.
#[tactic(auto, unfolding(crate::specs::Headings::same_heading, crate::specs::Headings::heading_number, crate::specs::Squares::same_square))]
pub fn equal_is_same()
    ensures headings { (h k : AnyHeading) → ⟦<Heading as PartialEq>⟧.eq h k ≡ same_heading h k }
    ensures megacells { (m n : AnyMegacell) → ⟦<Megacell as PartialEq>⟧.eq m n ≡ same_square m n }
    ensures places { (p q : AnyPlace) → ⟦<Place as PartialEq>⟧.eq p q ≡ same_square p q }
{}

/// Sameness of headings and of squares holds both ways round, and along a chain.
#[tactic(auto, using(crate::specs::Sameness::headings_alike, crate::specs::Sameness::squares_alike))]
pub fn sameness_goes_both_ways()
    ensures headings { IsPartialEquivalence same_heading }
    ensures squares { (side : ℕ) → IsPartialEquivalence (same_square {side = side}) }
{}

/// Left is one less and right one more of a heading's number, modulo 4, and no two headings share a number.
pub fn headings_turn_by_number()
    ensures { TurnsByNumber }
{}

/// After a turn the exit is the left of the exit before, in the same megacell; after a cross it is the right of it,
/// in the neighbour.
pub fn exits_go_along()
    ensures { ExitsGoAlong }
{}
