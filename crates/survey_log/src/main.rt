//! Reads a log from standard input and writes the sheet of its survey, seen as it was logged (frame 0); or the line
//! that tells its refusal.
#![tactic(auto)]

use survey::log::survey_log;
use survey_program::run;

/// The bytes of the longest log, and one more, by which a longer one is told.
const MOST: u64 = 16393;

fn main(rt: HostRuntime) -> anyhow::Result<()> {
    run(&rt, MOST, survey_log)
}
