use super::Light;
use std::fmt;

impl fmt::Display for Light {
    fn fmt<W: fmt::Write>(&self, f: &mut fmt::Formatter<W>) -> fmt::Result {
        match self {
            Light::Unlit => write!(f, "unlit"),
            Light::Lux(level) => {
                let level = *level;
                write!(f, "{level} lux")
            }
        }
    }
}
