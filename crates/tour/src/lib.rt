//! The theory of the tour: what follows from the three rules alone, on every lawful floor and from every start.
//!
//! Nothing here runs. Each function stands for one theorem, which its contract names, and is proved when the
//! theorem is; the statements are in `specs/`, to be read from `History` to `Examples`.
#![tactic(auto)]

ghost use Rattle.tour.specs.Examples.{LawsMet, WorkedFloors};
ghost use Rattle.tour.specs.Ground.{OneNumber};
ghost use Rattle.tour.specs.Meaning.{Meaning};
ghost use Rattle.tour.specs.Rules.{OneNext};
ghost use Rattle.tour.specs.Tour.{Covers, ComesHome, RulesMake};

/// A megacell counts as old, and another as its parent, exactly when the words say so of the history.
pub fn old_and_parent_mean_what_they_say()
    ensures { Meaning }
{}

/// After every history the rules allow exactly one move.
pub fn rules_allow_one_move()
    ensures { OneNext }
{}

/// Moves that the rules allow, one after the other until home, are the tour.
pub fn rules_make_the_tour()
    ensures { RulesMake }
{}

/// The megacells of the ground have one number, and so have those that pass a test.
pub fn megacells_have_one_number()
    ensures { OneNumber }
{}

/// The tour enters every subcell of the ground once and no other place, is home exactly then, never asks for a
/// step that is refused, and looks at most three times for each old megacell, and once.
pub fn tour_covers_the_ground()
    ensures { Covers }
{}

/// Every tour comes home, by 4,096 moves.
pub fn tour_comes_home()
    ensures { ComesHome }
{}

/// There are lawful floors: a shut one, the wholly open board, and one for every choice of free megacells.
pub fn laws_can_be_met()
    ensures { LawsMet }
{}

/// The tours of small floors: their letters, looks and grounds.
pub fn worked_floors_stand()
    ensures { WorkedFloors }
{}
