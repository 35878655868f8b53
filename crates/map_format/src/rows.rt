ghost use Rattle.std.specs.Prelude.{◌≡◌, ◌≤◌, length};
ghost use Rattle.map_format.specs.Rows.{width as width_of};

/// A map of at most 1,056 bytes as rows: its bytes, and the width of its first row.
#[derive(Clone, Copy)]
pub(crate) struct Rows<'a> {
    map: &'a [u8],
    width: usize,
    ghost short: { length map.now ≤ 1056 },
    ghost within: { width ≤ length map.now },
    ghost first: { width ≡ width_of map.now },
}

pub mod methods;
