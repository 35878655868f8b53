ghost use Rattle.std.specs.Prelude.{◌≡◌, Some, Option};
ghost use Rattle.board.specs.Squares.{Megacell, Place};
ghost use Rattle.log_record.specs.declared.record.Record.{Record};

use board::megacell::Megacell;
use board::place::Place;
use log_record::record::Record;

/// What a rover needs of a log: the record of each megacell that has one, and a start.
pub trait Records {
    /// the record of a megacell
    ghost told: { Self → Megacell → Option Record };

    /// the place to start at
    ghost start: { Self → Option Place };

    /// The record of a megacell, if there is one.
    fn record(&self, megacell: Megacell) -> Option<Record>
        ensures { result ≡ told self.now megacell };

    /// The place to start at.
    fn start(&self) -> Place
        ensures { start self.now ≡ Some result };
}
