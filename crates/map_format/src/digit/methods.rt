ghost use Rattle.std.specs.Prelude.{◌≡◌};
ghost use Rattle.map_format.specs.Cells.{digit_of};

use super::Digit;

impl Digit {
    /// The digit that an ASCII byte is; none where it is no digit.
    #[tactic(auto, unfolding(crate::specs::Cells::digit_of))]
    pub(crate) fn of_byte(byte: u8) -> Option<Digit>
        ensures { result ≡ digit_of byte }
    {
        // An `Option`, and no `TryFrom`: a byte that is no digit is no error, it draws a free megacell.
        if byte >= b'0' && byte <= b'9' {
            Some(Digit { value: byte - b'0' })
        } else {
            None
        }
    }

    /// Its value.
    pub fn value(self) -> u8
        ensures { result ≡ self.value }
    {
        self.value
    }
}
