// Quoted texts.
ghost use Rattle.std.specs.Prelude.{◌≡◌, ◌≤◌, length, IfOk, option_map};
ghost use Rattle.game_text.specs.Reading.{spelled_byte, spelled, from_closing_quote};

use std::alloc::{AllocError, Global};

// The byte that the front of a text spells, and the bytes after it; nothing at a closing quote and
// at the end.
fn spelled_byte(bytes: &[u8]) -> Option<(u8, &[u8])>
    ensures { option_map (λ x. (x.0, x.1.now)) result ≡ spelled_byte bytes.now }
{
    match bytes {
        [] | [b'"', ..] => None,
        [b'\\', b'"', rest @ ..] => Some((b'"', rest)),
        [byte, rest @ ..] => Some((*byte, rest)),
    }
}

/// The bytes from the quote that closes a text on, where these are after its opening quote: none
/// where no quote closes it.
pub(crate) fn closing(bytes: &[u8]) -> &[u8]
    ensures closing { result.now ≡ from_closing_quote bytes.now }
    ensures within { length result.now ≤ length bytes.now }
{
    let mut rest = bytes;
    while let Some((_, after)) = spelled_byte(rest) {
        rest = after;
    }
    rest
}

/// The text that the bytes up to the closing quote spell, with room for this many bytes.
pub(crate) fn text(alloc: Global, bytes: &[u8], room: usize) -> Result<Vec<u8>, AllocError>
    ensures { IfOk result (λ text. text.items ≡ spelled bytes.now) }
{
    let mut text = Vec::with_capacity(alloc, room)?;
    let mut rest = bytes;
    while let Some((byte, after)) = spelled_byte(rest) {
        text.push(byte)?;
        rest = after;
    }
    Ok(text)
}
