// Sums, by cancelling before anything is multiplied.
ghost use Rattle.std.specs.Prelude.{◌≡◌, ◌<◌, ◌*◌, ◌^◌, nat_abs, MatchOption};
ghost use Rattle.frac128.specs.Fraction.{Fits};
ghost use Rattle.frac128.specs.Steps.{AddFits, SubFits};
ghost use Rattle.rational.specs.Gcd.{gcd as gcd_of};
ghost use Rattle.rational.specs.Rational.{frac, ◌+ℚ◌, ◌-ℚ◌};

use crate::Frac;
use crate::euclid::{divided, gcd};
use crate::fitting::{plus, product, times};

impl Frac {
    // The sum, where it fits.
    pub(crate) fn sum(self, other: Frac) -> Option<Frac>
        ensures { MatchOption result (¬ (AddFits self other)) (λ f. (f ≡ self +ℚ other)
            × AddFits self other) }
    {
        let num = self.num();
        let other_num = other.num();
        if num == 0 {
            Some(other)
        } else if other_num == 0 {
            Some(self)
        } else if self.den() == other.den() {
            self.like_sum(other)
        } else {
            self.unlike_sum(other)
        }
    }

    // The sum of fractions over the same denominator, where it fits.
    fn like_sum(self, other: Frac) -> Option<Frac>
        requires { self.den ≡ other.den }
        ensures { MatchOption result (¬ (AddFits self other)) (λ f. (f ≡ self +ℚ other)
            × AddFits self other) }
    {
        let top = plus(self.num(), other.num())?;
        Frac::reduced(top < 0, top.unsigned_abs(), self.den().unsigned_abs())
    }

    // The sum, where it fits. Of the divisors of the denominator, the numerator shares only some of
    // those that both denominators share.
    fn unlike_sum(self, other: Frac) -> Option<Frac>
        ensures { MatchOption result (¬ (AddFits self other)) (λ f. (f ≡ self +ℚ other)
            × AddFits self other) }
    {
        let den = self.den().unsigned_abs();
        let other_den = other.den().unsigned_abs();
        let common = gcd(den, other_den);
        let own = divided(den, common);
        let others = divided(other_den, common);
        let left = times(self.num(), others)?;
        let right = times(other.num(), own)?;
        let top = plus(left, right)?;
        over_product(top, own, others, common)
    }

    // The difference, where it fits.
    pub(crate) fn difference(self, other: Frac) -> Option<Frac>
        ensures { MatchOption result (¬ (SubFits self other)) (λ f. (f ≡ self -ℚ other)
            × SubFits self other) }
    {
        self.sum(other.neg())
    }
}

// The fraction top / (own * others * common), whose numerator shares divisors with common alone.
fn over_product(top: i128, own: u128, others: u128, common: u128) -> Option<Frac>
    requires own_positive { 0 < own }
    requires others_positive { 0 < others }
    requires common_positive { 0 < common }
    requires own_apart { gcd_of (nat_abs top) own ≡ 1 }
    requires others_apart { gcd_of (nat_abs top) others ≡ 1 }
    requires other_den_in_range { others * common < 2 ^ 127 }
    ensures { MatchOption result (¬ (Fits (frac top (own * (others * common))))) (λ f. (f
        ≡ frac top (own * (others * common))) × Fits f) }
{
    let size = top.unsigned_abs();
    let shared = gcd(size, common);
    let lowest_top = divided(size, shared);
    let rest = divided(common, shared);
    let bottom = product(own, others * rest)?;
    Frac::from_sizes(top < 0, lowest_top, bottom)
}
