/// What a rover on a drawn floor reads at a place.
// An enum of its own, and no `Option<f32>`: a rule of the project.
#[derive(Clone, Copy, Debug)]
pub enum Light {
    /// No lamp stands over the place.
    Unlit,
    /// A lamp stands over it, and gives this level, in lux.
    Lux(f32),
}

pub mod display;
pub mod levels;
