// Lines of equilibria, read back.
ghost use Rattle.std.specs.Prelude.{◌≡◌, ◌≢◌, ◌-◌, ◌<◌, ◌≤◌, ◌^◌, ℕ, List, [], ◌++◌, ◌∷◌, ◌↔◌, IsTrue, length, pos, MatchOption};
ghost use Rattle.std.specs.Char.{is_ascii_digit};
ghost use Rattle.std.specs.List.{All, list_all};
ghost use Rattle.std.specs.Str.Parse.{digits_value};
ghost use Rattle.answers.specs.Answers.{Gives, map_ok};
ghost use Rattle.answers.specs.Answered.{IsAnswered};
ghost use Rattle.rational.specs.Rational.{ℚ, frac};
ghost use Rattle.ne_printer.specs.ReadLines.{IsShortNumeral, IsWholeNumber, IsFraction, entries_in, line_in, LinesAreSingle, LinesReadBack};
ghost use Rattle.ne_printer.specs.TextLines.{IsFirstLine, lines_of};
ghost use Rattle.ne_printer.specs.declared.reading.LineStop.TheVariants as stops;

use frac128::Frac;
use std::alloc::{AllocFailed, Global};

// The greatest number of a part.
const MOST: u128 = i128::MAX as u128;

/// Why a line was not read.
#[derive(Clone, Copy, Debug, PartialEq, Eq)]
pub enum LineStop {
    /// It is not `NE,` followed by nothing or by fractions with single commas between them.
    Bad,
    /// Memory ran out.
    Memory,
}

impl<T: Drop> From<AllocFailed<T>> for LineStop {
    ghost use Rattle.std.specs.Prelude.{◌≡◌};
    ghost use Rattle.ne_printer.specs.declared.reading.LineStop.TheVariants as stops;

    ghost from_gives = { λ _ e. e ≡ stops.Memory };

    fn from(_refused: AllocFailed<T>) -> LineStop {
        LineStop::Memory
    }
}

// The number that digits stand for, where it is not above the greatest.
#[tactic(auto, using(crate::proofs::NumeralLemmas::numeral_text))]
fn value(digits: &[u8]) -> Option<u128>
    requires { IsShortNumeral digits.now }
    ensures { MatchOption result (2 ^ 127 - 1 < digits_value 10 digits.now)
        (λ n. (n ≡ digits_value 10 digits.now) × (n ≤ 2 ^ 127 - 1)) }
{
    let number = str::from_utf8(digits).ok()?.parse::<u128>().ok()?;
    (number <= MOST).then_some(number)
}

// Whether all are digits.
fn all_digits(text: &[u8]) -> bool
    ensures { result ≡ list_all is_ascii_digit text.now }
{
    text.iter().all(|b| b.is_ascii_digit())
}

// Whether a text is 1 to 39 digits.
#[tactic(auto, using(crate::proofs::NumeralLemmas::digits_tested))]
fn is_numeral(text: &[u8]) -> bool
    ensures { IsTrue result ↔ IsShortNumeral text.now }
{
    !text.is_empty() && text.len() <= 39 && all_digits(text)
}

// The number that a text is.
fn number(text: &[u8]) -> Option<u128>
    ensures { MatchOption result ((n : ℕ) → IsWholeNumber text.now n → ⊥) (IsWholeNumber text.now) }
{
    if !is_numeral(text) {
        return None;
    }
    value(text)
}

// What stands before the first such byte, and what after it, where there is one.
fn cut(text: &[u8], byte: u8) -> Option<(&[u8], &[u8])>
    ensures { MatchOption result (All (λ b. b ≢ byte) text.now)
        (λ cut. All (λ b. b ≢ byte) cut.0.now × (text.now ≡ cut.0.now ++ byte ∷ cut.1.now)) }
{
    let place = text.iter().position(|b| *b == byte)?;
    Some((&text[..place], &text[place + 1..]))
}

/// The first line of a text, without its line feed, and what stands after that; nothing where the
/// text is empty.
pub fn first_line(text: &[u8]) -> Option<(&[u8], &[u8])>
    ensures cut { MatchOption result (text.now ≡ [])
        (λ cut. IsFirstLine text.now cut.0.now cut.1.now) }
    ensures lines { MatchOption result (text.now ≡ [])
        (λ cut. lines_of text.now ≡ cut.0.now ∷ lines_of cut.1.now) }
    ensures shorter { MatchOption result (text.now ≡ [])
        (λ cut. length cut.1.now < length text.now) }
{
    if text.is_empty() {
        return None;
    }
    let Some((line, following)) = cut(text, b'\n') else {
        return Some((text, &[]));
    };
    Some((line, following))
}

// A numerator over a denominator.
fn over(num: u128, den: u128) -> Frac
    requires num { num < 2 ^ 127 }
    requires positive { 0 < den }
    requires den { den < 2 ^ 127 }
    ensures { result ≡ frac (pos num) den }
{
    Frac::over(num as i128, den)
}

// The fraction that a text is.
fn fraction_in(text: &[u8]) -> Option<Frac>
    ensures { MatchOption result ((q : ℚ) → IsFraction text.now q → ⊥) (IsFraction text.now) }
{
    let Some((top, bottom)) = cut(text, b'/') else {
        return Some(over(number(text)?, 1));
    };
    let num = number(top)?;
    let den = number(bottom)?;
    if den == 0 {
        return None;
    }
    Some(over(num, den))
}

// The fractions with single commas between them.
fn entries_in(alloc: Global, text: &[u8]) -> Result<Vec<Frac>, LineStop>
    ensures { Gives stops.Memory (entries_in text.now) (map_ok result (λ entries. entries.items)) }
{
    let mut entries = Vec::new(alloc);
    for part in text.split(|b| *b == b',') {
        match fraction_in(part) {
            Some(entry) => entries.push(entry)?,
            None => return Err(LineStop::Bad),
        }
    }
    Ok(entries)
}

/// The entries of a line without its line feed, as `NE,1/2,1/2,1,0`.
///
/// # Errors
///
/// `Bad` exactly where the line is not `NE,` and after it nothing, or fractions with single commas
/// between them. A fraction is 1 to 39 digits, or two such numbers with `/` between them, each at
/// most 2^127 - 1 and the second not 0. `Memory` where memory ran out.
pub fn read_line(alloc: Global, line: &[u8]) -> Result<Vec<Frac>, LineStop>
    ensures { Gives stops.Memory (line_in line.now) (map_ok result (λ entries. entries.items)) }
{
    let Some(text) = line.strip_prefix(b"NE,") else {
        return Err(LineStop::Bad);
    };
    if text.is_empty() {
        return Ok(Vec::new(alloc));
    }
    entries_in(alloc, text)
}

/// A line has at most one answer: its entries, or that it has none.
pub fn lines_are_single()
    ensures { LinesAreSingle }
{}

/// A line has an answer.
pub fn lines_are_answered()
    ensures { (line : List ℕ) → IsAnswered (line_in line) }
{}

/// The line of entries, without its line feed, is read as they are.
pub fn lines_read_back()
    ensures { LinesReadBack }
{}
