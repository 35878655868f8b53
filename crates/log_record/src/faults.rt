ghost use Rattle.log_record.specs.Faults.{told};

use fault::Fault;
use fault::layer::Layer;
use fault::refusal::Refusal;
use thiserror::Error;

/// Why a log is refused. Records are numbered from 1; number 0 is the header.
#[derive(Clone, Copy, Debug, PartialEq, Eq, Error)]
pub enum LogFault {
    /// Under 8 bytes, over 1,024 records, or another length than the records take.
    #[error("not the length of a log: 8 bytes, and 16 for each of its records, of which there are at most 1024")]
    WrongLength,
    /// The start lies off the board, or one of the header's two last bytes is not zero.
    #[error("the start lies off the board, or a spare byte of the header is not zero")]
    BadHeader,
    /// An index past the last record; `holder` is the record that holds it.
    #[error("record {holder} names a next record past the last one (record 0 is the header)")]
    IndexBeyond { holder: u16 },
    /// A chained record with a megacell off the board, sides over 15, or a byte that should be zero and is not.
    #[error("record {record} has a megacell off the board, unknown sides, or a spare byte that is not zero")]
    BadRecord { record: u16 },
    /// A chained record of a megacell that has an earlier one on the chain.
    #[error("record {record} tells of a megacell that has a record already")]
    SecondRecord { record: u16 },
    /// No chained record of the megacell that the start lies in.
    #[error("no record tells of the megacell that the start lies in")]
    StartUntold,
}

impl Fault for LogFault {
    ghost tells = { told };

    fn refusal(&self) -> Refusal {
        match *self {
            LogFault::WrongLength => Refusal::new(7, Layer::Log, 0),
            LogFault::BadHeader => Refusal::new(8, Layer::Log, 0),
            LogFault::IndexBeyond { holder } => Refusal::new(9, Layer::Log, usize::from(holder)),
            LogFault::BadRecord { record } => Refusal::new(10, Layer::Log, usize::from(record)),
            LogFault::SecondRecord { record } => Refusal::new(11, Layer::Log, usize::from(record)),
            LogFault::StartUntold => Refusal::new(12, Layer::Log, 0),
        }
    }
}
