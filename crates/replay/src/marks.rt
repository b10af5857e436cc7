//! What a draws file shows of a card.
ghost use Rattle.std.specs.Prelude.{◌≡◌, ◌+◌, ◌≤◌};
ghost use Rattle.calls.specs.Calls.{reading, reading_of};
ghost use Rattle.replay.specs.Replays.{card_of, four};

use ballot::Card;
use calls::Reading;
use std::array;

/// Four bytes as a number, the most significant first.
fn number(bytes: &[u8; 32], at: usize) -> u32
    requires { at + 4 ≤ 32 }
    ensures { result ≡ four bytes.now at }
{
    u32::from_be_bytes([bytes[at], bytes[at + 1], bytes[at + 2], bytes[at + 3]])
}

/// The card whose marks the bytes are.
fn card_from(marks: &[u8; 32]) -> Card
    ensures { result ≡ card_of marks.now }
{
    Card {
        marks: array::from_fn(|contest| number(marks, 4 * contest)),
    }
}

/// What a command shows: a place, whether its card was found, and the card's marks.
// The found byte goes on as the file has it: a call refuses what is neither 0 nor 1.
pub(crate) fn reading(place: u16, found: u8, marks: &[u8; 32]) -> Reading
    ensures { reading_of result ≡ reading place found (card_of marks.now) }
{
    let card = card_from(marks);
    Reading { place, found, card }
}
