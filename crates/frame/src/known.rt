ghost use Rattle.std.specs.Prelude.{◌≡◌};
ghost use Rattle.std.specs.Option.{option_map};
ghost use Rattle.board.specs.Squares.{placed};
ghost use Rattle.frame.specs.Frames.{mirrored, quarter};

/// What the definitions give for two known places: (1, 1) under one quarter turn, and (5, 40) in the mirror.
pub fn known_places_stand()
    ensures turned { option_map quarter (placed 1 1) ≡ placed 1 62 }
    ensures mirror { option_map mirrored (placed 5 40) ≡ placed 5 23 }
{}
