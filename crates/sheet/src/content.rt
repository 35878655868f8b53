use crate::lines::Line;

/// What a sheet says: its first line, the letters of a tour, and its last line.
#[derive(Clone, Copy)]
pub(crate) struct Content<'a> {
    pub(crate) start: Line<'static, 2>,
    pub(crate) tour: &'a [u8],
    pub(crate) ending: Line<'static, 3>,
}

pub mod methods;
