use crate::Terrain;
use board::place::Place;

/// A meter rover on a terrain. It has no copies: whoever holds it drives it.
#[derive(Drop)]
pub struct RoverOn<T: Terrain> {
    terrain: T,
    place: Place,
    moves: u32,
    looks: u32,
}

pub mod drive;
