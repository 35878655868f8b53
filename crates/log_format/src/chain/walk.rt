ghost use Rattle.std.specs.Prelude.{◌≡◌, true, Some, None, Err, MatchResult};
ghost use Rattle.log_record.specs.Layout.{header_of};
ghost use Rattle.log_format.specs.Chain.{led, stops, stop};
ghost use Rattle.log_format.specs.Log.{refusal};

use super::Chain;
use crate::told::Told;
use log_record::faults::LogFault;
use log_record::header::read_header;
use log_record::record::{Record, record_at};

impl<'a> Chain<'a> {
    /// The chain of a log; refused where the bytes have no header.
    pub(crate) fn read(bytes: &'a [u8]) -> Result<Chain<'a>, LogFault>
        ensures { MatchResult result (λ chain. chain.bytes.now ≡ bytes.now) (λ e. header_of bytes.now ≡ Err e) }
    {
        let header = read_header(bytes)?;
        Ok(Chain { bytes, header })
    }

    /// The record that an index leads to; `holder` is the record that holds the index.
    fn led(&self, holder: u16, index: u16) -> Result<Record, LogFault>
        ensures { result ≡ led self.now.bytes.now self.now.header.count holder index }
    {
        if index > self.header.count {
            return Err(LogFault::IndexBeyond { holder });
        }
        record_at(self.bytes, index).ok_or(LogFault::BadRecord { record: index })
    }

    /// Goes along the chain to its end, and refuses at the first step that is none of a log's.
    pub(crate) fn walk(&self) -> Result<(), LogFault>
        ensures is { MatchResult result (λ _. refusal self.now.bytes.now ≡ None) (λ e. refusal self.now.bytes.now ≡ Some e) }
        ensures ends { stops self.now.bytes.now (stop self.now.bytes.now) ≡ true }
    {
        let mut told = Told::none();
        let mut holder = 0;
        let mut index = self.header.first;
        while index != 0 {
            let record = self.led(holder, index)?;
            told.mark(record.megacell, index)?;
            holder = index;
            index = record.next;
        }
        if told.has(self.header.start) {
            Ok(())
        } else {
            Err(LogFault::StartUntold)
        }
    }
}
