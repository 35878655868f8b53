ghost use Rattle.log_format.specs.Known.{Known};
ghost use Rattle.log_format.specs.Meaning.{AcceptedExactly, TellsOfChain};

/// The rules give what is known of the worked logs.
pub fn known_logs_stand()
    ensures { Known }
{}

/// A log is accepted exactly when its chain ends, its records are good and tell of different megacells, and one tells
/// of the start's; and what an accepted log tells of a megacell is its chained record.
pub fn log_meaning_stands()
    ensures accepted { AcceptedExactly }
    ensures tells { TellsOfChain }
{}
