// Products and sums of a fraction's parts, where they fit.
ghost use Rattle.std.specs.Prelude.{◌≡◌, ◌↔◌, ◌<◌, ◌*◌, ◌^◌, ◌+ℤ◌, ◌*ℤ◌, nat_abs, pos, IsTrue, MatchOption};
ghost use Rattle.std.specs.Option.{SomeIff};
ghost use Rattle.frac128.specs.Fraction.{PartFits, with_sign};

use crate::euclid::MOST_64_BITS;

/// The first size of a part that does not fit.
pub(crate) const TWO_TO_127: u128 = 170141183460469231731687303715884105728;

// The first number of more than 64 bits.
const TWO_TO_64: u128 = 18446744073709551616;

// 2^63: two smaller sizes have a product below 2^126.
const TWO_TO_63: u128 = 9223372036854775808;

/// The number of this size, with a sign.
pub fn signed(size: u128, negative: bool) -> i128
    requires { size < 2 ^ 127 }
    ensures value { result ≡ with_sign negative size }
    ensures fits { PartFits result }
{
    let number = size as i128;
    if negative { -number } else { number }
}

/// Whether a part is below 2^63 in size, so that the product with another such part fits.
pub fn is_short(part: i128) -> bool
    ensures { IsTrue result ↔ (nat_abs part < 2 ^ 63) }
{
    part.unsigned_abs() < TWO_TO_63
}

/// The product of two sizes, where it fits 128 bits. The only divisor is 2^64.
pub(crate) fn product(n: u128, m: u128) -> Option<u128>
    ensures { SomeIff result (n * m < 2 ^ 128) (n * m) }
{
    if n <= MOST_64_BITS && m <= MOST_64_BITS {
        Some(n * m)
    } else if m <= MOST_64_BITS {
        long_product(n, m)
    } else if n <= MOST_64_BITS {
        long_product(m, n)
    } else {
        None
    }
}

// The product of two sizes, where it fits 128 bits, by the two halves of the first one.
fn long_product(long: u128, short: u128) -> Option<u128>
    requires { short < 2 ^ 64 }
    ensures { SomeIff result (long * short < 2 ^ 128) (long * short) }
{
    let high = long / TWO_TO_64 * short;
    if high > MOST_64_BITS {
        return None;
    }
    let low = long % TWO_TO_64 * short;
    (high * TWO_TO_64).checked_add(low)
}

/// The product of a part and a size, where it fits.
pub(crate) fn times(n: i128, m: u128) -> Option<i128>
    ensures { MatchOption result (¬ (PartFits (n *ℤ pos m))) (λ p. (p ≡ n *ℤ pos m) × PartFits p) }
{
    let size = product(n.unsigned_abs(), m)?;
    if size >= TWO_TO_127 {
        return None;
    }
    Some(signed(size, n < 0))
}

/// The sum of two parts, where it fits.
pub(crate) fn plus(n: i128, m: i128) -> Option<i128>
    ensures { MatchOption result (¬ (PartFits (n +ℤ m))) (λ s. (s ≡ n +ℤ m) × PartFits s) }
{
    let sum = n.checked_add(m)?;
    if sum.unsigned_abs() >= TWO_TO_127 {
        return None;
    }
    Some(sum)
}
