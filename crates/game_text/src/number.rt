// Reads a number.
ghost use Rattle.std.specs.Prelude.{◌≡◌, ◌≢◌, List, [], ℕ, pos, IfOk, IsErrOf};
ghost use Rattle.std.specs.Char.{IsAsciiDigit};
ghost use Rattle.std.specs.List.{All};
ghost use Rattle.std.specs.Str.Parse.{digits_value};
ghost use Rattle.rational.specs.Rational.{ℚ};
ghost use Rattle.frac128.specs.Fraction.{with_sign};
ghost use Rattle.game_text.specs.Laws.{EveryTextHasAnAnswer};
ghost use Rattle.game_text.specs.Numbers.{NumberForm, Fraction, Decimal, IsWritten, IsNumber, IsTooLarge, IsNoNumber};
ghost use Rattle.game_text.specs.NumberReading.{Answers, GivesValue, decimal_of, form_with, fraction_of};

use crate::parts::{are_digits, split_digits, split_power, split_sign};
use crate::sizes::{are_zeros, exponent_of, size_of, size_of_both, without_trailing_zeros};
use crate::values::{decimal, fraction};
use frac128::Frac;

/// Why a text is no number that is accepted.
#[derive(Clone, Copy, Debug, PartialEq, Eq)]
pub enum NumberFault {
    /// It is not written as a number, or its divisor is zero.
    Bad,
    /// It is written as a number that passes a limit.
    TooLarge,
}

// The value of a fraction within the limits.
fn fraction_value(negative: bool, top: &[u8], bottom: &[u8]) -> Option<Frac>
    requires top { All IsAsciiDigit top.now }
    requires bottom { All IsAsciiDigit bottom.now }
    requires divisor { digits_value 10 bottom.now ≢ 0 }
    ensures { GivesValue (Fraction negative top.now bottom.now) result }
{
    let top = size_of(top)?;
    let bottom = size_of(bottom)?;
    fraction(negative, top, bottom)
}

// The value of a decimal within the limits.
fn decimal_value(
    negative: bool,
    before: &[u8],
    after: &[u8],
    falls: bool,
    power: &[u8],
) -> Option<Frac>
    requires before { All IsAsciiDigit before.now }
    requires after { All IsAsciiDigit after.now }
    requires power { All IsAsciiDigit power.now }
    ensures { GivesValue (Decimal negative before.now after.now
        (with_sign falls (digits_value 10 power.now))) result }
{
    let exponent = exponent_of(power)?;
    let after = without_trailing_zeros(after);
    let size = size_of_both(before, after)?;
    decimal(negative, size, after.len(), falls, exponent)
}

// A fraction with these digits above, and what is to be digits below.
#[tactic(auto, unfolding(crate::specs::NumberReading::fraction_of))]
fn read_fraction(negative: bool, top: &[u8], bottom: &[u8]) -> Result<Frac, NumberFault>
    requires { All IsAsciiDigit top.now }
    ensures { Answers (fraction_of negative top.now bottom.now) result }
{
    if !top.is_empty() && are_digits(bottom) && !are_zeros(bottom) {
        fraction_value(negative, top, bottom).ok_or(NumberFault::TooLarge)
    } else {
        Err(NumberFault::Bad)
    }
}

// A decimal with these digits before and after the point, and what is to be an exponent.
#[tactic(auto, unfolding(crate::specs::NumberReading::decimal_of))]
fn read_decimal(
    negative: bool,
    before: &[u8],
    after: &[u8],
    power: &[u8],
) -> Result<Frac, NumberFault>
    requires before { All IsAsciiDigit before.now }
    requires after { All IsAsciiDigit after.now }
    ensures { Answers (decimal_of negative before.now after.now power.now) result }
{
    if before.is_empty() && after.is_empty() {
        return Err(NumberFault::Bad);
    }
    let Some((falls, power)) = split_power(power) else {
        return Err(NumberFault::Bad);
    };
    decimal_value(negative, before, after, falls, power).ok_or(NumberFault::TooLarge)
}

// The value of a whole number within the limits.
fn whole_value(negative: bool, digits: &[u8]) -> Option<Frac>
    requires { All IsAsciiDigit digits.now }
    ensures { GivesValue (Decimal negative digits.now [] (pos 0)) result }
{
    let size = size_of(digits)?;
    decimal(negative, size, 0, false, 0)
}

// A whole number with these digits.
#[tactic(auto, unfolding(crate::specs::NumberReading::decimal_of, crate::specs::NumberReading::power_of))]
fn read_whole(negative: bool, digits: &[u8]) -> Result<Frac, NumberFault>
    requires { All IsAsciiDigit digits.now }
    ensures { Answers (decimal_of negative digits.now [] []) result }
{
    if digits.is_empty() {
        return Err(NumberFault::Bad);
    }
    whole_value(negative, digits).ok_or(NumberFault::TooLarge)
}

// The number with these first digits and what comes after them.
#[tactic(auto, unfolding(crate::specs::NumberReading::form_with))]
fn read_rest(negative: bool, before: &[u8], rest: &[u8]) -> Result<Frac, NumberFault>
    requires { All IsAsciiDigit before.now }
    ensures { Answers (form_with negative before.now rest.now) result }
{
    match rest {
        [] => read_whole(negative, before),
        [b'/', bottom @ ..] => read_fraction(negative, before, bottom),
        [b'.', rest @ ..] => {
            let (after, power) = split_digits(rest);
            read_decimal(negative, before, after, power)
        }
        _ => read_decimal(negative, before, &[], rest),
    }
}

/// Reads a number: an optional sign, and a fraction of digits or a decimal with an optional
/// exponent. Takes no memory.
///
/// # Errors
///
/// `Bad` exactly where the text has no number's form; `TooLarge` exactly where it has one that
/// passes a limit: an exponent outside -18 to 18, more than 36 digits when zeros that do not count
/// are struck, or a value with a numerator or denominator of 2^63 or more in size.
pub fn read_number(text: &[u8]) -> Result<Frac, NumberFault>
    ensures number { IfOk result (IsNumber text.now) }
    ensures bad { IsErrOf result NumberFault.Bad → IsNoNumber text.now }
    ensures too_large { IsErrOf result NumberFault.TooLarge → IsTooLarge text.now }
{
    let (negative, unsigned) = split_sign(text);
    let (before, rest) = split_digits(unsigned);
    read_rest(negative, before, rest)
}

/// A text is written in one form at most.
pub fn numbers_have_one_form()
    ensures { (text : List ℕ) (one other : NumberForm) → IsWritten text one → IsWritten text other
        → one ≡ other }
{}

/// A text is a number of one value, or too large, or no number, and no two of these.
pub fn numbers_have_one_value()
    ensures some { EveryTextHasAnAnswer }
    ensures value { (text : List ℕ) (one other : ℚ) → IsNumber text one → IsNumber text other
        → one ≡ other }
    ensures not_too_large { (text : List ℕ) (value : ℚ) → IsNumber text value → IsTooLarge text
        → ⊥ }
    ensures not_bad { (text : List ℕ) (value : ℚ) → IsNumber text value → IsNoNumber text → ⊥ }
    ensures bad_or_too_large { (text : List ℕ) → IsTooLarge text → IsNoNumber text → ⊥ }
{}
