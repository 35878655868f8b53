ghost use Rattle.std.specs.Prelude.{◌≡◌, Some, None, Ok, MatchResult};
ghost use Rattle.log_record.specs.Layout.{start_of, header_of};
ghost use Rattle.log_format.specs.Chain.{EndsInTime};
ghost use Rattle.log_format.specs.Log.{refusal, record_of, Reaching};

use super::Log;
use crate::chain::Chain;
use crate::records::Records;
use board::megacell::Megacell;
use board::place::Place;
use log_record::faults::LogFault;
use log_record::record::{Record, record_at};

impl<'a> Log<'a> {
    /// Reads a log: the bytes are followed along the chain once and stay lent. It ends on every input.
    #[tactic(auto, unfolding(crate::specs::Log::refusal))]
    pub fn read(bytes: &'a [u8]) -> Result<Log<'a>, LogFault>
        ensures is { MatchResult result
            (λ log. (log.chain.bytes.now ≡ bytes.now) × (refusal bytes.now ≡ None))
            (λ e. refusal bytes.now ≡ Some e) }
        ensures ends { EndsInTime bytes.now }
    {
        let chain = Chain::read(bytes)?;
        chain.walk()?;
        Ok(Log { chain })
    }

    /// The record of a megacell, if there is one.
    #[tactic(auto, using(crate::proofs::Following::from_start))]
    pub fn record(&self, megacell: Megacell) -> Option<Record>
        ensures { result ≡ record_of self.now.chain.bytes.now megacell }
    {
        seek(self.chain.bytes, self.chain.header.first, megacell)
    }

    /// The place to start at.
    #[tactic(auto, using(log_record::proofs::Headers::header_tells))]
    pub fn start(&self) -> Place
        ensures { start_of self.now.chain.bytes.now ≡ Some result }
    {
        self.chain.header.start
    }
}

/// An accepted log tells what its bytes hold.
impl<'a> Records for Log<'a> {
    ghost told = { λ s. record_of s.chain.bytes.now };

    ghost start = { λ s. start_of s.chain.bytes.now };

    fn record(&self, megacell: Megacell) -> Option<Record> {
        Log::record(self, megacell)
    }

    fn start(&self) -> Place {
        Log::start(self)
    }
}

/// The record of a megacell, from an index of the chain on.
// A recursion and no loop: a rule of the project.
fn seek(log: &[u8], index: u16, megacell: Megacell) -> Option<Record>
    requires { Reaching log.now index megacell }
    ensures { result ≡ record_of log.now megacell }
{
    let record = record_at(log, index)?;
    if record.megacell == megacell {
        return Some(record);
    }
    seek(log, record.next, megacell)
}
