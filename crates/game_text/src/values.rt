// The values of numbers, where both parts in lowest terms are below 2^63.
ghost use Rattle.std.specs.Prelude.{◌≡◌, ◌<◌, ◌≤◌, ◌+◌, ◌*◌, ◌^◌};
ghost use Rattle.rational.specs.Rational.{frac, whole, ◌*ℚ◌};
ghost use Rattle.frac128.specs.Fraction.{with_sign};
ghost use Rattle.game_text.specs.Numbers.{ten_to};
ghost use Rattle.game_text.specs.NumberReading.{GivesShort};

use frac128::{Frac, is_short, signed};

// 2^63.
const TWO_TO_63: u128 = 9223372036854775808;

// The greatest power of ten that one step divides by.
const DIGITS_AT_ONCE: usize = 18;

// The fraction, where it is short.
fn short(fraction: Frac) -> Option<Frac>
    ensures { GivesShort fraction result }
{
    if is_short(fraction.num()) && is_short(fraction.den()) {
        Some(fraction)
    } else {
        None
    }
}

// The fraction over a power of ten.
fn divided(fraction: Frac, power: usize) -> Frac
    requires short { fraction.den < 2 ^ 63 }
    requires power { power ≤ 18 }
    ensures { result ≡ frac fraction.num (fraction.den * 10 ^ power) }
{
    let factor = u128::from(10_u64.pow(power as u32));
    Frac::over(fraction.num(), fraction.den().unsigned_abs() * factor)
}

// The fraction over a power of ten, where it is short. A denominator that is not short stays so.
fn lowered(fraction: Frac, power: usize) -> Option<Frac>
    ensures { GivesShort (frac fraction.num (fraction.den * 10 ^ power)) result }
{
    let mut lowest = fraction;
    let mut left = power;
    while left > 0 {
        if !is_short(lowest.den()) {
            return None;
        }
        let step = left.min(DIGITS_AT_ONCE);
        lowest = divided(lowest, step);
        left -= step;
    }
    short(lowest)
}

// A whole number times a power of ten, where it is short.
fn raised(negative: bool, size: u128, power: usize) -> Option<Frac>
    requires { power ≤ 18 }
    ensures { GivesShort (whole (with_sign negative (size * 10 ^ power))) result }
{
    if size >= TWO_TO_63 {
        return None;
    }
    let factor = u128::from(10_u64.pow(power as u32));
    short(Frac::over(signed(size * factor, negative), 1))
}

// A fraction of two sizes, where it is short.
pub(crate) fn fraction(negative: bool, top: u128, bottom: u128) -> Option<Frac>
    requires top { top < 10 ^ 36 }
    requires bottom { bottom < 10 ^ 36 }
    requires positive { 0 < bottom }
    ensures { GivesShort (frac (with_sign negative top) bottom) result }
{
    short(Frac::over(signed(top, negative), bottom))
}

// A number with so many digits after the point, times or over a power of ten, where it is short.
pub(crate) fn decimal(
    negative: bool,
    size: u128,
    places: usize,
    falls: bool,
    exponent: usize,
) -> Option<Frac>
    requires size { size < 10 ^ 36 }
    requires places { places < 2 ^ 63 }
    requires exponent { exponent ≤ 18 }
    ensures { GivesShort (frac (with_sign negative size) (10 ^ places) *ℚ ten_to
        (with_sign falls exponent)) result }
{
    if falls {
        lowered(Frac::over(signed(size, negative), 1), places + exponent)
    } else if exponent <= places {
        lowered(Frac::over(signed(size, negative), 1), places - exponent)
    } else {
        raised(negative, size, exponent - places)
    }
}
