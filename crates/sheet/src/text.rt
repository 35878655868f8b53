ghost use Rattle.std.specs.Prelude.{◌≡◌, ◌≤◌, [], ◌∷◌, length, decimal};
ghost use Rattle.sheet.specs.Sheets.{spaced};
ghost use Rattle.sheet.specs.Writing.{written, Room, Put};

// Each writer is lent its part of the buffer, a rule of the project, and says what room it needs: a struct over the part
// would hold the same two facts at each call.

/// A text at the front of the part lent: its length.
pub(crate) fn put_text(out: &mut [u8], text: &[u8]) -> usize
    requires { Room out.old text.now }
    ensures { Put out.old text.now out.new result }
{
    let length = text.len();
    out[..length].copy_from_slice(text);
    length
}

/// One byte at the front of the part lent: its length, 1.
pub(crate) fn put_byte(out: &mut [u8], byte: u8) -> usize
    requires { Room out.old (byte ∷ []) }
    ensures { Put out.old (byte ∷ []) out.new result }
{
    put_text(out, &[byte])
}

/// How many decimal digits a number has.
pub(crate) fn digits(number: usize) -> usize
    ensures is { result ≡ length (decimal number) }
    ensures few { result ≤ 20 }
{
    match number.checked_ilog10() {
        Some(log) => log as usize + 1,
        None => 1,
    }
}

/// A number in decimal digits, without leading zeros, at the front of the part lent: its length.
pub(crate) fn put_number(out: &mut [u8], number: usize) -> usize
    requires { Room out.old (decimal number) }
    ensures { Put out.old (decimal number) out.new result }
{
    // `write!` into a slice would answer a want of room, which cannot come here.
    if number < 10 {
        return put_byte(out, b'0' + number as u8);
    }
    let at = put_number(out, number / 10);
    at + put_byte(&mut out[at..], b'0' + (number % 10) as u8)
}

/// A space and a number at the front of the part lent: their length.
pub(crate) fn put_spaced(out: &mut [u8], number: usize) -> usize
    requires { Room out.old (spaced number) }
    ensures { Put out.old (spaced number) out.new result }
{
    let at = put_byte(out, b' ');
    at + put_number(&mut out[at..], number)
}
