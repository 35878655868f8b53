ghost use Rattle.std.specs.Prelude.{length};
ghost use Rattle.sheet.specs.Refusing.{sheet_fault, short_for, LaidOut};
ghost use Rattle.sheet.specs.Sheets.{sheet as sheet_of, refusal_line};

use crate::content::Content;
use crate::faults::SheetFault;
use crate::letters::first_unlettered;
use crate::lines::{last_line, refusal_line, start_line};
use board::place::Place;
use fault::Fault;
use sweep::sweep::Record;

/// Lays out the sheet of a tour: the start, the letters, and how the sweep ended. It answers the sheet's length.
///
/// Letters and record need not agree. A refusal writes nothing.
pub fn lay_out(
    sheet: &mut [u8],
    start: Place,
    tour: &[u8],
    ending: Record,
) -> Result<usize, SheetFault>
    ensures { LaidOut
        (sheet_fault (length sheet.old) tour.now (sheet_of start tour.now ending))
        (sheet_of start tour.now ending)
        sheet.old sheet.new result }
{
    if let Some(offset) = first_unlettered(tour) {
        return Err(SheetFault::NoLetter { offset });
    }
    let content = Content {
        start: start_line(start),
        tour,
        ending: last_line(ending),
    };
    let needed = content.length();
    if sheet.len() < needed {
        return Err(SheetFault::Short { needed });
    }
    Ok(content.put(sheet))
}

/// Lays out the line that tells a refusal: the word REFUSED, number and place. It answers the line's length.
pub fn lay_out_refusal<F: Fault>(line: &mut [u8], fault: &F) -> Result<usize, SheetFault>
    ensures { LaidOut
        (short_for (length line.old) (refusal_line (F.Fault.tells fault.now).number (F.Fault.tells fault.now).place))
        (refusal_line (F.Fault.tells fault.now).number (F.Fault.tells fault.now).place)
        line.old line.new result }
{
    let refusal = refusal_line(fault);
    let length = refusal.length();
    if line.len() < length {
        return Err(SheetFault::Short { needed: length });
    }
    Ok(refusal.put(line))
}
