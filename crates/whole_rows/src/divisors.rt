// Division by a number that probably divides.
ghost use Rattle.std.specs.Prelude.{◌≡◌, ◌<◌, ◌*◌, ◌*ℤ◌, ◌<ℤ◌, pos, nat_abs, IfSome};
ghost use Rattle.std.specs.Int.{◌∣◌};
ghost use Rattle.frac128.specs.Fraction.{PartFits};

use crate::arithmetic::exact_quotient;

// 2^64.
const TWO_TO_64: u128 = 18446744073709551616;

// 2^63.
const TWO_TO_63: u64 = 9223372036854775808;

/// A divisor: an odd number times 2^zeros, with the odd number's inverse modulo 2^64.
#[derive(Clone, Copy)]
pub struct Divisor {
    /// The divisor.
    pub value: u64,
    zeros: u32,
    inverse: u64,
    ghost few_zeros: { zeros < 64 },
}

// The inverse of an odd number modulo 2^64: each step doubles the bits that are right, and the
// first guess has five.
fn inverse_of(odd: u64) -> u64 {
    let mut inverse = odd.wrapping_mul(3) ^ 2;
    for _ in 0..4 {
        inverse = inverse.wrapping_mul(2u64.wrapping_sub(odd.wrapping_mul(inverse)));
    }
    inverse
}

// The product of two numbers of 64 bits.
fn long_product(a: u64, b: u64) -> u128
    ensures { result ≡ a * b }
{
    a as u128 * b as u128
}

impl Divisor {
    /// The divisor, where it has no more than 64 bits.
    pub fn of(by: i128) -> Option<Divisor>
        ensures { IfSome result (λ d. pos d.value ≡ by) }
    {
        u64::try_from(by).ok().map(Divisor::new)
    }

    /// The divisor with this value.
    pub fn new(value: u64) -> Divisor
        ensures { result.value ≡ value }
    {
        let zeros = value.trailing_zeros() & 63;
        Divisor {
            value,
            zeros,
            inverse: inverse_of(value >> zeros),
        }
    }

    /// The quotient, where the product with the inverse is one. Nothing is promised where it is not.
    pub fn quotient(&self, n: i128) -> Option<i128>
        requires { PartFits n }
        ensures { IfSome result (λ q. (q *ℤ pos self.now.value ≡ n) × PartFits q) }
    {
        let size = n.unsigned_abs();
        let guess = (((size >> self.zeros) % TWO_TO_64) as u64).wrapping_mul(self.inverse);
        if guess >= TWO_TO_63 || long_product(guess, self.value) != size {
            return None;
        }
        let quotient = guess as i128;
        Some(if n < 0 { -quotient } else { quotient })
    }
}

// The quotient of a number by a divisor of it.
pub(crate) fn quotient_by(n: i128, by: i128, divisor: Option<Divisor>) -> i128
    requires positive { pos 0 <ℤ by }
    requires fits { PartFits n }
    requires divides { nat_abs by ∣ nat_abs n }
    requires same { IfSome divisor (λ d. pos d.value ≡ by) }
    ensures value { result *ℤ by ≡ n }
    ensures fits { PartFits result }
{
    if let Some(divisor) = divisor {
        if let Some(quotient) = divisor.quotient(n) {
            return quotient;
        }
    }
    exact_quotient(n, by)
}
