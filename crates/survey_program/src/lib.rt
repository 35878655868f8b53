//! What the survey programs share: their run, their buffers, and how they write what a survey answered.
#![tactic(auto)]

ghost use Rattle.std.specs.Prelude.{◌≡◌};
ghost use Rattle.survey_program.specs.Shown.{Shown};

use chart::slot::Slot;
use chart::slots::chart_of;
use sheet::layout::lay_out_refusal;
use std::io::{Read, Write};
use survey::faults::SurveyFault;

/// The bytes of a tour: the longest has four moves for each of the 1,024 megacells.
pub const TOUR: usize = 4096;

/// Bytes that hold the longest sheet: its letters with an LF each 64, and two lines of at most 32 bytes.
pub const SHEET: usize = 4096 + 64 + 64;

/// Writes to standard output the sheet that a survey laid out, or the line that tells its refusal. Both end well;
/// a failed write is an error.
pub fn show(
    rt: &HostRuntime,
    answer: Result<usize, SurveyFault>,
    sheet: &mut [u8],
) -> anyhow::Result<()>
    ensures { Shown answer sheet.old sheet.new }
{
    let length = match answer {
        Ok(length) => length,
        Err(fault) => lay_out_refusal(sheet, &fault)?,
    };
    let end = length.min(sheet.len());
    rt.stdout().write_all(&sheet[..end])?;
    Ok(())
}

/// Surveys what standard input holds, up to `most` bytes, as it stands there (frame 0), and writes the sheet, or the
/// line that tells the refusal. Want of memory is an error, and so is a failed read or write.
pub fn run<
    T: Drop,
    F: FnOnce(&[u8], u8, &mut [Slot<T>], &mut [u8], &mut [u8]) -> Result<usize, SurveyFault>,
>(rt: &HostRuntime, most: u64, survey: F) -> anyhow::Result<()>
    requires { (input : _) (chart : _) (tour : _) (sheet : _) → F.pre survey input 0 chart tour sheet }
{
    let heap = rt.alloc();
    let mut input = Vec::new(heap);
    rt.stdin().take(most).read_to_end(&mut input)?;
    let mut chart = chart_of(heap)?;
    let mut tour = vec![in heap; 0u8; TOUR]?;
    let mut sheet = vec![in heap; 0u8; SHEET]?;
    let answer = survey(
        input.as_slice(),
        0,
        chart.as_mut_slice(),
        tour.as_mut_slice(),
        sheet.as_mut_slice(),
    );
    show(rt, answer, sheet.as_mut_slice())
}
