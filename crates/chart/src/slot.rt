/// What a chart has for a place: nothing yet, or one reading.
pub type Slot<T> = Option<T>;
