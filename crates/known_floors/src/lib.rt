//! A table of worked floors, and that the written rules give each row of it. Nothing here runs.
#![tactic(auto)]

ghost use Rattle.std.specs.Prelude.{◌≡◌, length};
ghost use Rattle.known_floors.specs.Calls.{LogCallsGive, MapCallsGive};
ghost use Rattle.known_floors.specs.Outcomes.{bytes_of, surveyed_map};
ghost use Rattle.known_floors.specs.Table.{EachGiven, corner, table};

/// The rules give each of the thirteen rows. The sheet of the three megacells around a corner has 35 bytes.
pub fn known_floors_stand()
    ensures each { EachGiven table }
    ensures rows { length table ≡ 13 }
    ensures bytes { length (bytes_of (surveyed_map corner 0)) ≡ 35 }
{}

/// What `survey_map` and `survey_log` promise is what is tabled: with a tour buffer of 4,096 bytes, a chart that is not
/// too small and room for the sheet, they give the outcome that the rules make of the bytes.
pub fn calls_give_what_is_tabled()
    ensures maps { MapCallsGive 4096 }
    ensures logs { LogCallsGive 4096 }
{}
