ghost use Rattle.std.specs.Prelude.{◌≡◌};
ghost use Rattle.sweep.specs.Table.{leads, look_if_new};

use crate::choice::Choice;
use board::heading::Heading;
use board::megacell::Megacell;

/// What a sweep knows of a megacell: it is new, or it is the start's, or it is old and its parent lies in this heading.
#[derive(Clone, Copy)]
pub enum Mark {
    New,
    Root,
    Under(Heading),
}

impl Mark {
    /// Whether the parent lies in this heading.
    #[tactic(auto, unfolding(board::specs::Headings::same_heading, board::specs::Headings::heading_number))]
    pub(crate) fn leads(self, heading: Heading) -> bool
        ensures { result ≡ leads self heading }
    {
        matches!(self, Mark::Under(to) if heading == to)
    }

    /// Look where the neighbour is new, and turn where it is old.
    pub(crate) fn look_if_new(self, other: Megacell) -> Choice
        ensures { result ≡ look_if_new self other }
    {
        match self {
            Mark::New => Choice::Look(other),
            Mark::Root | Mark::Under(_) => Choice::Turn,
        }
    }
}
