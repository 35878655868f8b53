ghost use Rattle.log_floor.specs.Known.{Known};

/// The rules give what is known of the worked log's floor and field.
pub fn known_log_floor_stands()
    ensures { Known }
{}
