ghost use Rattle.map_format.specs.Known.{KnownMaps};
ghost use Rattle.map_format.specs.Layout.{RowsLie};

/// The rules give the known answers to known maps.
#[tactic(auto, unfolding(firsts::specs::First::first))]
pub fn known_maps_stand()
    ensures { KnownMaps }
{}

/// Rows begin at the map's first byte and after each LF, and nowhere else: there the rules look for them.
#[tactic(auto, using(crate::proofs::Lying::rows_lie))]
pub fn rows_lie()
    ensures { RowsLie }
{}
