// The type of fractions.
ghost use Rattle.std.specs.Prelude.{◌≡◌, ◌≢◌, ◌⊎◌, ◌↔◌, ◌<◌, ◌^◌, nat_abs, pos, IsNone, IfSome, IsTrue, MatchOption};
ghost use Rattle.frac128.specs.Fraction.{quotient, Fits, PartFits, with_sign};
ghost use Rattle.rational.specs.Extremes.{IsGreater, IsLesser};
ghost use Rattle.rational.specs.Gcd.{gcd as gcd_of};
ghost use Rattle.rational.specs.Rational.{frac, zero_ℚ, one_ℚ, neg_ℚ, ◌<ℚ◌};
ghost use Rattle.rational.specs.Tests.{cmp_ℚ, sign_of};

use crate::euclid::{cmp_signed_quotients, divided, gcd};
use crate::fitting::{TWO_TO_127, is_short, signed};
use std::cmp::Ordering;
use std::fmt;
use std::marker::Model;

/// A rational number in lowest terms: its denominator is positive, and both parts lie from
/// -(2^127 - 1) to 2^127 - 1.
#[derive(Debug, Clone, Copy)]
pub struct Frac {
    num: i128,
    den: i128,
}

impl Model for Frac {
    ghost use Rattle.rational.specs.Rational.{ℚ};
    ghost use Rattle.rational.proofs.CodeLemmas.{code_ℚ};

    ghost Value = { ℚ };

    ghost coded = { code_ℚ };

    ghost use Rattle.frac128.specs.Fraction.{value_of, InLowestTerms, fields_of, fields_of_value};

    ghost view = { value_of };

    ghost invariant = { InLowestTerms };

    ghost inverse = { fields_of };

    ghost inverse_ok = { fields_of_value };
}

impl PartialEq for Frac {
    ghost use Rattle.std.proofs.Common.{rules};
    ghost use Rattle.std.specs.Cmp.Rules.{comparing};
    ghost use Rattle.rational.specs.Tests.{eq_ℚ};

    ghost eq = { eq_ℚ };

    ghost laws = { Prim.search (comparing, rules) };

    fn eq(&self, other: &Frac) -> bool
        ensures same { IsTrue result ↔ (self.now ≡ other.now) }
        ensures value { result ≡ eq_ℚ self.now other.now }
    {
        self.num() == other.num() && self.den() == other.den()
    }
}

impl Eq for Frac {
    ghost use Rattle.std.proofs.Common.{rules};
    ghost use Rattle.std.specs.Cmp.Rules.{comparing};

    ghost laws = { Prim.search (comparing, rules) };
}

/// The numerator, with a `-` first where it is negative, and after `/` the denominator where that
/// is not 1.
impl fmt::Display for Frac {
    ghost use Rattle.std.specs.Prelude.{Some};
    ghost use Rattle.rational.specs.Text.{number_text};

    ghost output = { λ q. Some (number_text q) };

    fn fmt<W: fmt::Write>(&self, f: &mut fmt::Formatter<W>) -> fmt::Result {
        let num = self.num();
        let den = self.den();
        if den == 1 {
            write!(f, "{num}")
        } else {
            write!(f, "{num}/{den}")
        }
    }
}

impl Frac {
    /// Zero.
    #[tactic(auto, unfolding(rational::specs::Gcd::gcd))]
    pub fn zero() -> Frac
        ensures { result ≡ zero_ℚ }
    {
        Frac { num: 0, den: 1 }
    }

    /// One.
    #[tactic(auto, unfolding(rational::specs::Gcd::gcd))]
    pub fn one() -> Frac
        ensures { result ≡ one_ℚ }
    {
        Frac { num: 1, den: 1 }
    }

    /// The fraction `num / den` in lowest terms. `None` where `den` is 0, or where one of the two
    /// parts in lowest terms does not lie from -(2^127 - 1) to 2^127 - 1.
    pub fn new(num: i128, den: i128) -> Option<Frac>
        ensures none { IsNone result ↔ ((den ≡ pos 0) ⊎ (¬ (Fits (quotient num den)))) }
        ensures value { IfSome result (λ f. f ≡ quotient num den) }
        ensures fits { IfSome result Fits }
        ensures divisor { IfSome result (λ _. den ≢ pos 0) }
    {
        if den == 0 {
            return None;
        }
        Frac::reduced(
            (num < 0) != (den < 0),
            num.unsigned_abs(),
            den.unsigned_abs(),
        )
    }

    /// The fraction `num / den` in lowest terms, where the denominator is not 0 and both parts lie
    /// from -(2^127 - 1) to 2^127 - 1.
    pub fn over(num: i128, den: u128) -> Frac
        requires num { PartFits num }
        requires positive { 0 < den }
        requires den { den < 2 ^ 127 }
        ensures { result ≡ frac num den }
    {
        match Frac::reduced(num < 0, num.unsigned_abs(), den) {
            Some(fraction) => fraction,
            None => unreachable!(),
        }
    }

    /// The numerator in lowest terms, with the sign of the fraction.
    pub fn num(self) -> i128
        ensures value { result ≡ self.num }
        ensures fits { Fits self }
    {
        self.num
    }

    /// The denominator in lowest terms, which is positive.
    pub fn den(self) -> i128
        ensures value { result ≡ pos self.den }
        ensures positive { 0 < self.den }
        ensures fits { PartFits (pos self.den) }
    {
        self.den
    }

    /// Whether the fraction is zero.
    pub fn is_zero(self) -> bool
        ensures { IsTrue result ↔ (self ≡ zero_ℚ) }
    {
        self.num() == 0
    }

    /// 1, 0 or -1, as the fraction is positive, zero or negative.
    pub fn signum(self) -> i8
        ensures { result ≡ sign_of self }
    {
        self.num().signum() as i8
    }

    /// The fraction with the other sign.
    pub fn neg(self) -> Frac
        ensures { result ≡ neg_ℚ self }
    {
        Frac::from_lowest_terms(-self.num(), self.den().unsigned_abs())
    }

    /// The order of the two values.
    pub fn cmp(self, other: Frac) -> Ordering
        ensures { result ≡ cmp_ℚ self other }
    {
        let num = self.num();
        let den = self.den();
        let other_num = other.num();
        let other_den = other.den();
        if den == other_den {
            return num.cmp(&other_num);
        }
        if is_short(num) && is_short(den) && is_short(other_num) && is_short(other_den) {
            return (num * other_den).cmp(&(other_num * den));
        }
        cmp_signed_quotients(num, den.unsigned_abs(), other_num, other_den.unsigned_abs())
    }

    /// Whether the value is less than the other.
    pub fn is_less(self, other: Frac) -> bool
        ensures { IsTrue result ↔ (self <ℚ other) }
    {
        self.cmp(other).is_lt()
    }

    /// The greater of two values.
    pub fn max(self, other: Frac) -> Frac
        ensures { IsGreater self other result }
    {
        match self.cmp(other) {
            Ordering::Less => other,
            _ => self,
        }
    }

    /// The lesser of two values.
    pub fn min(self, other: Frac) -> Frac
        ensures { IsLesser self other result }
    {
        match self.cmp(other) {
            Ordering::Less => self,
            _ => other,
        }
    }

    // The fraction of two parts in lowest terms.
    pub(crate) fn from_lowest_terms(num: i128, den: u128) -> Frac
        requires positive { 0 < den }
        requires lowest { gcd_of (nat_abs num) den ≡ 1 }
        requires num_in_range { nat_abs num < 2 ^ 127 }
        requires den_in_range { den < 2 ^ 127 }
        ensures num { result.num ≡ num }
        ensures den { result.den ≡ den }
    {
        let den = den as i128;
        Frac { num, den }
    }

    // The fraction of two sizes that share no divisor, with a sign, where they fit.
    pub(crate) fn from_sizes(negative: bool, top: u128, bottom: u128) -> Option<Frac>
        requires positive { 0 < bottom }
        requires lowest { gcd_of top bottom ≡ 1 }
        ensures { MatchOption result (¬ (Fits (frac (with_sign negative top) bottom))) (λ f. (f
            ≡ frac (with_sign negative top) bottom) × Fits f) }
    {
        if top >= TWO_TO_127 || bottom >= TWO_TO_127 {
            return None;
        }
        Some(Frac::from_lowest_terms(signed(top, negative), bottom))
    }

    // The quotient of two sizes, with a sign, where its parts in lowest terms fit.
    pub(crate) fn reduced(negative: bool, top: u128, bottom: u128) -> Option<Frac>
        requires { 0 < bottom }
        ensures { MatchOption result (¬ (Fits (frac (with_sign negative top) bottom))) (λ f. (f
            ≡ frac (with_sign negative top) bottom) × Fits f) }
    {
        let common = gcd(top, bottom);
        let lowest_top = divided(top, common);
        let lowest_bottom = divided(bottom, common);
        Frac::from_sizes(negative, lowest_top, lowest_bottom)
    }
}
