ghost use Rattle.std.specs.Prelude.{◌≡◌, true, false, MatchResult, replicate, slice_index_or, slice_set};
ghost use Rattle.board.specs.Squares.{number_of};
ghost use Rattle.board.specs.Places.{megacell_of};
ghost use Rattle.log_record.specs.declared.faults.LogFault.TheVariants.{SecondRecord};

use board::megacell::Megacell;
use board::place::Place;
use board::table::Table;
use log_record::faults::LogFault;

/// Which megacells a chain has told of, by their numbers.
#[derive(Drop)]
pub(crate) struct Told {
    // A table and no set, which would allocate: the reader cannot want for memory.
    seen: Table<bool>,
}

impl Told {
    /// None of them.
    pub(crate) fn none() -> Told
        ensures { result.seen.entries ≡ replicate 1024 false }
    {
        Told {
            seen: Table::of([false; 1024]),
        }
    }

    /// Marks the megacell of record `index` as told of; refused where it was.
    pub(crate) fn mark(&mut self, megacell: Megacell, index: u16) -> Result<(), LogFault>
        ensures { MatchResult result
            (λ _. (slice_index_or self.old.seen.entries (number_of megacell) false ≡ false) × (self.new.seen.entries ≡ slice_set self.old.seen.entries (number_of megacell) true))
            (λ e. (slice_index_or self.old.seen.entries (number_of megacell) false ≡ true) × (self.new.seen.entries ≡ self.old.seen.entries) × (e ≡ SecondRecord index)) }
    {
        if self.seen.get(megacell) {
            return Err(LogFault::SecondRecord { record: index });
        }
        self.seen.set(megacell, true);
        Ok(())
    }

    /// Whether the megacell that a place lies in was told of.
    pub(crate) fn has(&self, place: Place) -> bool
        ensures { result ≡ slice_index_or self.now.seen.entries (number_of (megacell_of place)) false }
    {
        self.seen.get(place.megacell())
    }
}
