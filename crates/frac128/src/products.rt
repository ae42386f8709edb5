// Products, by cancelling before anything is multiplied.
ghost use Rattle.std.specs.Prelude.{◌≡◌, ◌≢◌, ◌<◌, ◌*◌, MatchOption};
ghost use Rattle.frac128.specs.Fraction.{Fits, with_sign};
ghost use Rattle.frac128.specs.Steps.{MulFits, DivFits};
ghost use Rattle.rational.specs.Gcd.{gcd as gcd_of};
ghost use Rattle.rational.specs.Rational.{frac, zero_ℚ, inv_ℚ, ◌*ℚ◌};

use crate::Frac;
use crate::euclid::{divided, gcd};
use crate::fitting::product;

impl Frac {
    // The product, where it fits.
    pub(crate) fn product(self, other: Frac) -> Option<Frac>
        ensures { MatchOption result (¬ (MulFits self other)) (λ f. (f ≡ self *ℚ other)
            × MulFits self other) }
    {
        let num = self.num();
        let other_num = other.num();
        let size = num.unsigned_abs();
        let den = self.den().unsigned_abs();
        let other_size = other_num.unsigned_abs();
        let other_den = other.den().unsigned_abs();
        product_of(
            (num < 0) != (other_num < 0),
            size,
            den,
            other_size,
            other_den,
        )
    }

    // The quotient, where it fits.
    pub(crate) fn quotient(self, other: Frac) -> Option<Frac>
        requires { other ≢ zero_ℚ }
        ensures { MatchOption result (¬ (DivFits self other)) (λ f. (f ≡ self *ℚ inv_ℚ other)
            × DivFits self other) }
    {
        let num = self.num();
        let divisor_num = other.num();
        let size = num.unsigned_abs();
        let den = self.den().unsigned_abs();
        let divisor_size = divisor_num.unsigned_abs();
        let divisor_den = other.den().unsigned_abs();
        product_of(
            (num < 0) != (divisor_num < 0),
            size,
            den,
            divisor_den,
            divisor_size,
        )
    }
}

// The product of a / b and c / d, with a sign, where it fits. Both are in lowest terms.
fn product_of(negative: bool, a: u128, b: u128, c: u128, d: u128) -> Option<Frac>
    requires left_positive { 0 < b }
    requires right_positive { 0 < d }
    requires left_lowest { gcd_of a b ≡ 1 }
    requires right_lowest { gcd_of c d ≡ 1 }
    ensures { MatchOption result (¬ (Fits (frac (with_sign negative (a * c)) (b * d)))) (λ f. (f
        ≡ frac (with_sign negative (a * c)) (b * d)) × Fits f) }
{
    if a == 0 || c == 0 {
        return Some(Frac::zero());
    }
    let g = gcd(a, d);
    let h = gcd(c, b);
    let top_left = divided(a, g);
    let top_right = divided(c, h);
    let bottom_left = divided(b, h);
    let bottom_right = divided(d, g);
    let top = product(top_left, top_right)?;
    let bottom = product(bottom_left, bottom_right)?;
    Frac::from_sizes(negative, top, bottom)
}
