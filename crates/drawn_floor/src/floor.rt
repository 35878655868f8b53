use map_format::drawing::Drawing;
use terrain::rover_on::RoverOn;

/// The floor that a drawing draws.
#[derive(Drop)]
pub struct DrawnFloor {
    pub drawing: Drawing,
}

/// A meter rover on a drawn floor. It starts in the south-east subcell of `S`.
pub type DrawnRover = RoverOn<DrawnFloor>;

pub mod found;
