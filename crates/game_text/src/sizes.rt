// The numbers that digits stand for.
ghost use Rattle.std.specs.Prelude.{◌≡◌, ◌<◌, ◌≤◌, ◌^◌, ◌++◌, MatchOption};
ghost use Rattle.std.specs.Char.{IsAsciiDigit};
ghost use Rattle.std.specs.List.{All, list_all};
ghost use Rattle.std.specs.Str.Parse.{digits_value, digits_value_after};
ghost use Rattle.game_text.specs.Digits.{without_trailing_zeros};
ghost use Rattle.game_text.specs.NumberReading.{GivesSize, is_zero};

// The first number of 37 digits.
const LONG: u128 = 1000000000000000000000000000000000000;

// The number that the digits stand for after those of a number, where it is below the limit.
fn with_digits(number: u128, digits: &[u8], limit: u128) -> Option<u128>
    requires digits { All IsAsciiDigit digits.now }
    requires limit { limit ≤ 10 ^ 36 }
    requires below { number < limit }
    ensures { MatchOption result (limit ≤ digits_value_after 10 number digits.now) (λ n. (n
        ≡ digits_value_after 10 number digits.now) × (n < limit)) }
{
    let mut value = number;
    for digit in digits {
        value = 10 * value + u128::from(*digit - b'0');
        if value >= limit {
            return None;
        }
    }
    Some(value)
}

// The number that digits stand for, where no more than 36 are left without the zeros before them.
pub(crate) fn size_of(digits: &[u8]) -> Option<u128>
    requires { All IsAsciiDigit digits.now }
    ensures { GivesSize digits.now result }
{
    with_digits(0, digits, LONG)
}

// The same for the digits before and after a point, taken together.
pub(crate) fn size_of_both(before: &[u8], after: &[u8]) -> Option<u128>
    requires before { All IsAsciiDigit before.now }
    requires after { All IsAsciiDigit after.now }
    ensures { GivesSize (before.now ++ after.now) result }
{
    let number = with_digits(0, before, LONG)?;
    with_digits(number, after, LONG)
}

// The size of an exponent, where it is 18 at most.
pub(crate) fn exponent_of(digits: &[u8]) -> Option<usize>
    requires { All IsAsciiDigit digits.now }
    ensures { let value = digits_value 10 digits.now in
        MatchOption result (18 < value) (λ n. (n ≡ value) × (n ≤ 18)) }
{
    let size = with_digits(0, digits, 19)?;
    Some(size as usize)
}

// Whether there are zeros alone.
pub(crate) fn are_zeros(digits: &[u8]) -> bool
    ensures { result ≡ list_all is_zero digits.now }
{
    digits.iter().all(|b| *b == b'0')
}

// The digits up to the last that is not 0.
pub(crate) fn without_trailing_zeros(digits: &[u8]) -> &[u8]
    ensures { result.now ≡ without_trailing_zeros digits.now }
{
    let mut rest = digits;
    while let [more @ .., b'0'] = rest {
        rest = more;
    }
    rest
}
