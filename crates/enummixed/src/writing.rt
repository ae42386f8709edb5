// The text of the lines of pairs: the entries of each point are written once, and joined by pairs.
ghost use Rattle.std.specs.Prelude.{◌≡◌, ◌++◌, List, [], get_or, map, IfOk, OnOk};
ghost use Rattle.answers.specs.Answers.{Gives, map_ok};
ghost use Rattle.rational.specs.Rational.{ℚ};
ghost use Rattle.game_theory.specs.Lines.{line_text, lines_text};
ghost use Rattle.ne_printer.specs.Entries.{entries_text, line_start};
ghost use Rattle.enumpure.specs.Stops.{within_text_limit};
ghost use Rattle.enumpure.specs.declared.listing.ListStop.TheVariants as stops;
ghost use Rattle.enummixed.specs.Order.{line_of};

use answers::Memory;
use enumpure::ListStop;
use frac128::Frac;
use game_core::{MOST_TEXT, too_long_text};
use ne_printer::push_numbers;
use std::alloc::Global;

// The entries of a point, each after a comma: a line without a name and without its line feed.
fn entries_text(alloc: Global, point: &[Frac]) -> Result<Vec<u8>, Memory>
    ensures { IfOk result (λ text. text.items ≡ entries_text point.now) }
{
    let mut text = Vec::new(alloc);
    push_numbers(alloc, &mut text, b"", point)?;
    text.pop();
    Ok(text)
}

// The same of each point.
fn entries_texts(alloc: Global, points: &[Vec<Frac>]) -> Result<Vec<Vec<u8>>, Memory>
    ensures { IfOk result (λ texts.
        map (λ v. v.items) texts.items ≡ map (λ v. entries_text v.items) points.now) }
{
    let mut texts = Vec::with_capacity(alloc, points.len())?;
    for point in points {
        texts.push(entries_text(alloc, point)?)?;
    }
    Ok(texts)
}

// The text at a place, and an empty one where there is none.
fn text_at(texts: &[Vec<u8>], place: u32) -> &[u8]
    ensures { result.now ≡ get_or (map (λ v. v.items) texts.now) place [] }
{
    match texts.get(place as usize) {
        Some(text) => text.as_slice(),
        None => &[],
    }
}

// What stands before the entries of two points, whose texts these are.
fn line_start(first: &[u8], second: &[u8]) -> &'static [u8]
    ensures { (xs ys : List ℚ) → first.now ≡ entries_text xs → second.now ≡ entries_text ys
        → result.now ≡ line_start (xs ++ ys) }
{
    if first.is_empty() && second.is_empty() {
        b"NE,"
    } else {
        b"NE"
    }
}

// Adds the line of two points, whose texts these are.
fn push_joined(text: &mut Vec<u8>, first: &[u8], second: &[u8]) -> Result<(), Memory>
    ensures { (xs ys : List ℚ) → first.now ≡ entries_text xs → second.now ≡ entries_text ys
        → OnOk result (text.new.items ≡ text.old.items ++ line_text (xs ++ ys)) }
{
    text.extend_from_slice(line_start(first, second))?;
    text.extend_from_slice(first)?;
    text.extend_from_slice(second)?;
    text.push(b'\n')?;
    Ok(())
}

/// The lines of pairs of places, one after another.
///
/// # Errors
///
/// `TooLarge` exactly where they have more than 67,108,864 bytes; `Memory` where memory ran out.
pub(crate) fn write_lines(
    alloc: Global,
    pairs: &[(u32, u32)],
    firsts: &[Vec<Frac>],
    seconds: &[Vec<Frac>],
) -> Result<Vec<u8>, ListStop>
    ensures { Gives stops.Memory
        (within_text_limit (λ text. text ≡ lines_text
        (map (line_of (map (λ v. v.items) firsts.now) (map (λ v. v.items) seconds.now)) pairs.now)))
        (map_ok result (λ text. text.items)) }
{
    let first_texts = entries_texts(alloc, firsts)?;
    let second_texts = entries_texts(alloc, seconds)?;
    let mut text = Vec::new(alloc);
    for pair in pairs {
        let first = text_at(&first_texts, pair.0);
        let second = text_at(&second_texts, pair.1);
        push_joined(&mut text, first, second)?;
        if text.len() > MOST_TEXT {
            return Err(ListStop::TooLarge(too_long_text()));
        }
    }
    Ok(text)
}
