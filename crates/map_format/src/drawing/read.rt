ghost use Rattle.std.specs.Prelude.{◌≡◌, IfOk, None, Some};
ghost use Rattle.map_format.specs.Answer.{answer, refusal, first_start, drawn};
ghost use Rattle.map_format.specs.Layout.{LiesOn};

use super::Drawing;
use crate::bytes::{first_forbidden, first_from};
use crate::faults::MapFault;
use crate::rows::Rows;
use board::table::Table;

impl Drawing {
    /// What the rows of an accepted map draw, whose `S` stands at an offset.
    #[tactic(auto, using(crate::proofs::Drawn::start_row, crate::proofs::Drawn::start_column))]
    fn of(rows: &Rows, start: usize) -> Drawing
        requires accepted { refusal rows.now.map.now ≡ None }
        requires first { first_start rows.now.map.now ≡ Some start }
        ensures is { result ≡ drawn rows.now.map.now start }
        ensures lies { LiesOn rows.now.map.now result }
    {
        Drawing {
            cells: Table::of(rows.draw()),
            start: rows.megacell_of(start),
        }
    }

    /// The floor that a map draws, or the first reason to refuse it.
    pub fn read(map: &[u8]) -> Result<Drawing, MapFault>
        ensures is { result ≡ answer map.now }
        ensures lies { IfOk result (λ d. LiesOn map.now d) }
    {
        if map.len() < 1 || map.len() > 1056 {
            return Err(MapFault::Length { bytes: map.len() });
        }
        if let Some(offset) = first_forbidden(map) {
            return Err(MapFault::ForbiddenByte { offset });
        }
        let rows = Rows::of(map);
        if let Some(row) = rows.first_bad() {
            return Err(MapFault::BadRow {
                offset: rows.start_of(row),
            });
        }
        let end = rows.start_of(32);
        if end < map.len() {
            return Err(MapFault::ExtraRow { offset: end });
        }
        let Some(start) = first_from(map, b'S', 0) else {
            return Err(MapFault::NoStart { bytes: map.len() });
        };
        if let Some(offset) = first_from(map, b'S', start + 1) {
            return Err(MapFault::SecondStart { offset });
        }
        Ok(Drawing::of(&rows, start))
    }
}
