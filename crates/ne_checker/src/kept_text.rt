// The text that is written.
ghost use Rattle.std.specs.Prelude.{ℕ, List, ◌++◌, OnOk};
ghost use Rattle.answers.specs.Answers.{Gives, map_ok};
ghost use Rattle.ne_checker.specs.LineChecks.{limited};
ghost use Rattle.ne_checker.specs.Lines.{IsEnoughOf};
ghost use Rattle.ne_checker.specs.declared.stops.CheckStop.TheVariants as stops;

use crate::stops::CheckStop;
use answers::Memory;
use game_core::{MOST_TEXT, too_long_text};

/// Adds to a text, where that is not above the limit yet.
pub(crate) fn keep(text: &mut Vec<u8>, more: &[u8]) -> Result<(), Memory>
    ensures { OnOk result ((whole : List ℕ) → IsEnoughOf whole text.old.items
        → IsEnoughOf (whole ++ more.now) text.new.items) }
{
    if text.len() <= MOST_TEXT {
        text.extend_from_slice(more)?;
    }
    Ok(())
}

/// A text of which as much as the limit asks for was kept.
pub(crate) fn within_limit(text: Vec<u8>) -> Result<Vec<u8>, CheckStop>
    ensures { (whole : List ℕ) → IsEnoughOf whole text.items
        → Gives stops.Memory (limited whole) (map_ok result (λ kept. kept.items)) }
{
    if text.len() > MOST_TEXT {
        return Err(CheckStop::TooLarge(too_long_text()));
    }
    Ok(text)
}
