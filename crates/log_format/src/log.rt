ghost use Rattle.std.specs.Prelude.{◌≡◌, true};
ghost use Rattle.log_format.specs.Log.{accepts};

use crate::chain::Chain;

/// A log that the reader accepts: lent bytes with their header, and the knowledge that they are a log.
#[derive(Clone, Copy)]
pub struct Log<'a> {
    chain: Chain<'a>,
    ghost accepted: { accepts chain.bytes.now ≡ true },
}

pub mod methods;
