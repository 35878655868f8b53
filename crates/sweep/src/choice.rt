use board::megacell::Megacell;

/// What to do at an exit, before any look: cross to the parent, turn, or look whether the side to this new
/// neighbour is open.
#[derive(Clone, Copy)]
pub enum Choice {
    Cross,
    Turn,
    Look(Megacell),
}
