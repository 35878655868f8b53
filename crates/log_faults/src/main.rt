//! Reads each line of standard input as a log, `name:bytes in hex`, and says what the reader answers:
//! the number and the place of the refusal, or that the log is accepted.
#![tactic(auto)]

ghost use Rattle.std.specs.Prelude.{◌≡◌, ◌++◌, IfOk, string_bytes};
ghost use Rattle.log_format.specs.Known.{told_of};
ghost use Rattle.log_format.specs.Log.{refusal};
ghost use Rattle.log_faults.specs.Hex.{digit_of};
ghost use Rattle.log_faults.specs.Said.{said_of, refused_line};

use fault::Fault;
use fault::refusal::Refusal;
use log_format::log::Log;
use std::alloc::{AllocError, Global};
use std::io;

/// The number of a hex digit; none where it is none.
fn digit(byte: u8) -> Option<u8>
    ensures { result ≡ digit_of byte }
{
    match byte {
        b'0'..=b'9' => Some(byte - b'0'),
        b'a'..=b'f' => Some(byte - b'a' + 10),
        _ => None,
    }
}

/// The bytes that pairs of hex digits stand for, up to the first that is none.
fn unhex(heap: Global, text: &[u8]) -> Result<Vec<u8>, AllocError> {
    let mut bytes = Vec::new(heap);
    for pair in text.chunks(2) {
        let [high, low] = pair else {
            return Ok(bytes);
        };
        let (Some(high), Some(low)) = (digit(*high), digit(*low)) else {
            return Ok(bytes);
        };
        bytes.push(16 * high + low)?;
    }
    Ok(bytes)
}

/// The line of a refused log.
fn refused(heap: Global, name: &str, refusal: Refusal) -> Result<String, AllocError>
    ensures { IfOk result (λ s. string_bytes s ≡ name.now ++ refused_line refusal.number refusal.place) }
{
    let Refusal {
        number,
        layer: _,
        place,
    } = refusal;
    format!(in heap; "{name}: {number} {place}")
}

/// The line that says what the reader answers.
fn said(heap: Global, name: &str, log: &[u8]) -> Result<String, AllocError>
    ensures { IfOk result (λ s. string_bytes s ≡ name.now ++ said_of (told_of (refusal log.now))) }
{
    match Log::read(log) {
        Ok(_) => format!(in heap; "{name}: accepted"),
        Err(fault) => refused(heap, name, fault.refusal()),
    }
}

fn main(rt: HostRuntime) -> io::Result<()> {
    let heap = rt.alloc();
    for line in rt.lines(heap) {
        let line = line?;
        if let Some((name, hex)) = line.as_str().split_once(':') {
            let log = unhex(heap, hex.as_bytes())?;
            rt.println(said(heap, name, log.as_slice())?)?;
        }
    }
    Ok(())
}
