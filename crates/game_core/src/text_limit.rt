// The limit on the bytes of a text.
ghost use Rattle.std.specs.Prelude.{◌≡◌};
ghost use Rattle.game_core.specs.Limits.{first_above, most_text};
ghost use Rattle.game_core.specs.declared.too_large.What.TheVariants as what;

use crate::too_large::{TooLarge, What};

/// The most bytes that a text may have.
pub const MOST_TEXT: usize = 67_108_864;

/// Why a text with more bytes is not written. Its count is the first number above the limit.
pub fn too_long_text() -> TooLarge
    ensures { result ≡ first_above what.Text most_text }
{
    TooLarge::first_above(What::Text, MOST_TEXT as u64)
}
