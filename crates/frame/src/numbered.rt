ghost use Rattle.std.specs.Prelude.{◌≡◌, ◌<◌, MatchResult};
ghost use Rattle.frame.specs.Numbered.{frame_of, Refuses};

use super::faults::FrameFault;
use super::mirror::Mirror;
use super::pair::Pair;
use super::turn::Turn;

/// One of the eight frames that have a number: the mirror or nothing, and then quarter turns.
pub type Numbered = Pair<Option<Mirror>, Turn>;

/// The frame of a number, 0 to 7: it mirrors first where the number is 4 or more, and then makes as many
/// quarter turns as the number modulo 4.
impl TryFrom<u8> for Numbered {
    type Error = FrameFault;

    ghost try_from_gives = { λ number answer. MatchResult answer (λ frame. (number < 8) × (frame ≡ frame_of number)) (λ e. Refuses number e) };

    fn try_from(number: u8) -> Result<Numbered, FrameFault> {
        if number > 7 {
            return Err(FrameFault::Unknown { number });
        }
        Ok(Pair {
            first: if number >= 4 { Some(Mirror) } else { None },
            then: Turn {
                quarters: u32::from(number % 4),
            },
        })
    }
}
