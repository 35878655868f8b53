//! Reads a map from standard input and writes the sheet of its survey, seen as it is drawn (frame 0); or the line
//! that tells its refusal.
#![tactic(auto)]

use survey::map::survey_map;
use survey_program::run;

/// The bytes of the longest map, and one more, by which a longer one is told.
const MOST: u64 = 1057;

fn main(rt: HostRuntime) -> anyhow::Result<()> {
    run(&rt, MOST, survey_map)
}
