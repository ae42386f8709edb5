//! The text of equilibria: lines and fractions, and lines read back.
//!
//! Callers may rely on: `line`, `push_line`, `push_numbers`, `fraction` and `push_fraction` write
//! the defined bytes; `first_line` cuts a text after its first line; `read_line` gives a line's
//! entries, or `Bad`; `lines_read_back`.
//! Definitions: `game_theory` has the text of a line; `specs::Entries` that of numbers after a
//! name, `specs::TextLines` the lines of a text (`lines_of`), `specs::ReadLines` what a line reads
//! as (`line_in`).
//! Lemmas for callers: `proofs::LineTextLemmas` and `LinesReadLemmas`, on lines written and read.
//! A change here touches: the lines that the tools print, and those that `check` reads.
#![tactic(auto)]

mod reading;

ghost use Rattle.std.specs.Prelude.{◌≡◌, [], ◌∷◌, ◌++◌, IfOk, OnOk, OnErr, MatchOption};
ghost use Rattle.game_theory.specs.Lines.{line_text};
ghost use Rattle.rational.specs.Text.{number_text};
ghost use Rattle.ne_printer.specs.Entries.{entry_text, entries_text, numbers_line, line_start, BeginsWith, IsOneDigit};

use answers::Memory;
use frac128::Frac;
pub use reading::{
    LineStop, first_line, lines_are_answered, lines_are_single, lines_read_back, read_line,
};
use std::alloc::Global;

/// The bytes of the text of a fraction.
///
/// # Errors
///
/// Memory ran out.
pub fn fraction(alloc: Global, value: Frac) -> Result<Vec<u8>, Memory>
    ensures { IfOk result (λ text. text.items ≡ number_text value) }
{
    Ok(value.to_string(alloc)?.into_bytes())
}

/// Adds the text of a fraction to a text, which stays as it was where memory runs out. A whole
/// number from 0 to 9, as most are, takes no memory besides.
///
/// # Errors
///
/// Memory ran out.
pub fn push_fraction(alloc: Global, text: &mut Vec<u8>, value: Frac) -> Result<(), Memory>
    ensures fraction { OnOk result (text.new.items ≡ text.old.items ++ number_text value) }
    ensures memory { OnErr result (text.new.items ≡ text.old.items) }
{
    if let Some(digit) = one_digit(value) {
        text.push(digit)?;
    } else {
        let written = value.to_string(alloc)?;
        text.extend_from_slice(written.as_bytes())?;
    }
    Ok(())
}

/// Adds a line to a text: a name, each number after a comma, and a line feed.
///
/// # Errors
///
/// Memory ran out.
pub fn push_numbers(
    alloc: Global,
    text: &mut Vec<u8>,
    name: &[u8],
    numbers: &[Frac],
) -> Result<(), Memory>
    ensures line { OnOk result
        (text.new.items ≡ text.old.items ++ numbers_line name.now numbers.now) }
    ensures memory { OnErr result (text.new.items ≡ text.old.items) }
{
    let length = text.len();
    let pushed = push_parts(alloc, text, name, numbers);
    if pushed.is_err() {
        text.truncate(length);
    }
    pushed
}

/// Adds the line of an equilibrium with these entries to a text: `NE,`, the entries with commas
/// between them, and a line feed.
///
/// # Errors
///
/// Memory ran out.
pub fn push_line(alloc: Global, text: &mut Vec<u8>, entries: &[Frac]) -> Result<(), Memory>
    ensures line { OnOk result (text.new.items ≡ text.old.items ++ line_text entries.now) }
    ensures memory { OnErr result (text.new.items ≡ text.old.items) }
{
    push_numbers(alloc, text, line_start(entries), entries)
}

/// The line of an equilibrium with these entries: `NE,`, the entries with commas between them, and
/// a line feed.
///
/// # Errors
///
/// Memory ran out.
pub fn line(alloc: Global, entries: &[Frac]) -> Result<Vec<u8>, Memory>
    ensures { IfOk result (λ line. line.items ≡ line_text entries.now) }
{
    let mut line = Vec::new(alloc);
    push_line(alloc, &mut line, entries)?;
    Ok(line)
}

// Adds a line; where memory runs out, a part of it may stand after the text.
fn push_parts(
    alloc: Global,
    text: &mut Vec<u8>,
    name: &[u8],
    numbers: &[Frac],
) -> Result<(), Memory>
    ensures line { OnOk result
        (text.new.items ≡ text.old.items ++ numbers_line name.now numbers.now) }
    ensures kept { BeginsWith text.old.items text.new.items }
{
    text.extend_from_slice(name)?;
    push_entries(alloc, text, numbers)?;
    text.push(b'\n')?;
    Ok(())
}

// What stands before the entries where each is after a comma.
fn line_start(entries: &[Frac]) -> &'static [u8]
    ensures { result.now ≡ line_start entries.now }
{
    if entries.is_empty() { b"NE," } else { b"NE" }
}

// Adds the entries, each after a comma.
fn push_entries(alloc: Global, text: &mut Vec<u8>, entries: &[Frac]) -> Result<(), Memory>
    ensures entries { OnOk result (text.new.items ≡ text.old.items ++ entries_text entries.now) }
    ensures kept { BeginsWith text.old.items text.new.items }
{
    for entry in entries {
        push_entry(alloc, text, *entry)?;
    }
    Ok(())
}

// Adds an entry after a comma.
fn push_entry(alloc: Global, text: &mut Vec<u8>, entry: Frac) -> Result<(), Memory>
    ensures entry { OnOk result (text.new.items ≡ text.old.items ++ entry_text entry) }
    ensures kept { BeginsWith text.old.items text.new.items }
{
    text.push(b',')?;
    push_fraction(alloc, text, entry)
}

// The text of a whole number from 0 to 9, which most entries are, without formatting.
#[tactic(auto, using(crate::proofs::LineTextLemmas::number_text_cast))]
fn one_digit(value: Frac) -> Option<u8>
    ensures { MatchOption result (¬ (IsOneDigit value)) (λ digit. number_text value ≡ digit ∷ []) }
{
    match (value.num(), value.den()) {
        (num @ 0..=9, 1) => Some(b'0' + num as u8),
        _ => None,
    }
}
