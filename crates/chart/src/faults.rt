ghost use Rattle.chart.specs.Charts.{told};

use fault::Fault;
use fault::layer::Layer;
use fault::refusal::Refusal;
use thiserror::Error;

/// Why slots do not make a chart.
#[derive(Clone, Copy, Debug, PartialEq, Eq, Error)]
pub enum ChartFault {
    /// They are fewer than 4,096: so many.
    #[error("a chart needs 4096 slots, and there are {slots}")]
    Short { slots: usize },
}

impl Fault for ChartFault {
    ghost tells = { told };

    fn refusal(&self) -> Refusal {
        match *self {
            ChartFault::Short { slots } => Refusal::new(13, Layer::Chart, slots),
        }
    }
}
