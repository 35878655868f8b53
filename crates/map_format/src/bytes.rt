ghost use Rattle.std.specs.Prelude.{◌≡◌, ◌<◌, ◌≤◌, length, IfSome, slice_index};
ghost use Rattle.firsts.specs.First.{first};
ghost use Rattle.map_format.specs.Bytes.{permitted, forbidden, first_from};

/// Whether a map may have the byte.
fn is_permitted(byte: u8) -> bool
    ensures { result ≡ permitted byte }
{
    matches!(byte, b'\n' | b'#' | b'.' | b'S' | b'0'..=b'9')
}

/// The offset of the first byte that no map has.
#[tactic(auto, using(firsts::proofs::Firsts::looking))]
pub(crate) fn first_forbidden(map: &[u8]) -> Option<usize>
    ensures { result ≡ first (forbidden map.now) (length map.now) }
{
    // A rule of the project: this is a loop over the bytes with their index.
    for (offset, byte) in map.iter().enumerate() {
        if !is_permitted(*byte) {
            return Some(offset);
        }
    }
    None
}

/// The offset of the first byte that is `byte`, from an offset on.
pub(crate) fn first_from(map: &[u8], byte: u8, from: usize) -> Option<usize>
    requires { from ≤ length map.now }
    ensures is { result ≡ first_from map.now byte from }
    ensures within { IfSome result (λ o. (from ≤ o) × (o < length map.now) × (slice_index map.now o ≡ byte)) }
{
    map[from..]
        .iter()
        .position(|other| *other == byte)
        .map(|after| from + after)
}
