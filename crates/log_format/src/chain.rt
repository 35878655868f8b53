ghost use Rattle.std.specs.Prelude.{◌≡◌, Ok};
ghost use Rattle.log_record.specs.Layout.{header_of};

use log_record::header::Header;

/// Lent bytes that have a log's header, and the header, which says where the chain of their records begins.
#[derive(Clone, Copy)]
pub(crate) struct Chain<'a> {
    pub(crate) bytes: &'a [u8],
    pub(crate) header: Header,
    ghost headed: { header_of bytes.now ≡ Ok header },
}

pub mod walk;
