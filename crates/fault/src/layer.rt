use std::fmt;

/// A layer of the library that can refuse.
#[derive(Clone, Copy, Debug, PartialEq, Eq)]
pub enum Layer {
    Survey,
    Map,
    Log,
    Chart,
    Sweep,
    Rover,
    Sheet,
}

impl fmt::Display for Layer {
    fn fmt<W: fmt::Write>(&self, f: &mut fmt::Formatter<W>) -> fmt::Result {
        match self {
            Layer::Survey => write!(f, "survey"),
            Layer::Map => write!(f, "map"),
            Layer::Log => write!(f, "log"),
            Layer::Chart => write!(f, "chart"),
            Layer::Sweep => write!(f, "sweep"),
            Layer::Rover => write!(f, "rover"),
            Layer::Sheet => write!(f, "sheet"),
        }
    }
}
