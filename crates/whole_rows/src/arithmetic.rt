// Products and differences of whole numbers, where they fit, and the steps that do not.
ghost use Rattle.std.specs.Prelude.{◌≡◌, ◌<◌, ◌≤◌, ◌^◌, ◌*ℤ◌, ◌-ℤ◌, ◌<ℤ◌, nat_abs, pos, IfSome, MatchOption, All};
ghost use Rattle.std.specs.Int.{◌∣◌};
ghost use Rattle.std.specs.Ordering.{int_cmp};
ghost use Rattle.rational.specs.Rational.{frac};
ghost use Rattle.frac128.specs.Fraction.{PartFits};
ghost use Rattle.whole_rows.specs.Lists.{IsWhereFit};
ghost use Rattle.whole_rows.specs.Pivots.{other_factor, own_factor};
ghost use Rattle.whole_rows.specs.Shorts.{IsShort};
ghost use Rattle.frac128.specs.Steps.{StepFits, IsFirstUnfit};
ghost use Rattle.whole_rows.specs.Steps.{combination_steps, difference_step, product_step};

use frac128::{Frac, Op, Unfit, cmp_signed_quotients};
use std::cmp::Ordering;

// The number, where it has no more than 64 bits and its negative has no more.
pub(crate) fn short_factor(n: i128) -> Option<i64>
    ensures { IfSome result (λ u. (u ≡ n) × IsShort u) }
{
    match i64::try_from(n) {
        Ok(short) if short > i64::MIN => Some(short),
        _ => None,
    }
}

// The product of two numbers of 64 bits.
fn short_product(a: i64, b: i64) -> i128
    ensures value { result ≡ a *ℤ b }
    ensures fits { PartFits result }
{
    a as i128 * b as i128
}

// The product of a number of 64 bits and a factor; `None` where the number has more.
pub(crate) fn short_times(a: i128, u: i64) -> Option<i128>
    requires { IsShort u }
    ensures { IfSome result (λ p. (p ≡ a *ℤ u) × (nat_abs p < 2 ^ 126) × (nat_abs a ≤ 2 ^ 63)) }
{
    match i64::try_from(a) {
        Ok(short) => Some(short_product(short, u)),
        Err(_) => None,
    }
}

// The difference of two such products.
pub(crate) fn short_difference(p: i128, q: i128) -> i128
    requires left { nat_abs p < 2 ^ 126 }
    requires right { nat_abs q < 2 ^ 126 }
    ensures value { result ≡ p -ℤ q }
    ensures fits { PartFits result }
{
    p - q
}

// The product, where it fits. Where both numbers fit 64 bits, nothing is tested.
pub(crate) fn product(a: i128, b: i128) -> Option<i128>
    ensures { MatchOption result (¬ (PartFits (a *ℤ b))) (λ p. (p ≡ a *ℤ b) × PartFits p) }
{
    if let (Ok(a), Ok(b)) = (i64::try_from(a), i64::try_from(b)) {
        return Some(short_product(a, b));
    }
    let p = a.checked_mul(b)?;
    if p == i128::MIN {
        return None;
    }
    Some(p)
}

// The difference, where it fits.
pub(crate) fn difference(a: i128, b: i128) -> Option<i128>
    ensures { MatchOption result (¬ (PartFits (a -ℤ b))) (λ d. (d ≡ a -ℤ b) × PartFits d) }
{
    let d = a.checked_sub(b)?;
    if d == i128::MIN {
        return None;
    }
    Some(d)
}

// The product of a and u, less the product of b and v, where all three steps fit.
pub(crate) fn combination(a: i128, u: i128, b: i128, v: i128) -> Option<i128>
    ensures { IsWhereFit (combination_steps a u b v) ((a *ℤ u) -ℤ (b *ℤ v)) result }
{
    difference(product(a, u)?, product(b, v)?)
}

/// The fraction of two numbers, the second positive.
pub fn fraction(num: i128, den: i128) -> Frac
    requires positive { pos 0 <ℤ den }
    requires num_fits { PartFits num }
    requires den_fits { PartFits den }
    ensures { result ≡ frac num (nat_abs den) }
{
    Frac::over(num, den.unsigned_abs())
}

// A product that does not fit, as a refusal.
pub(crate) fn unfit_product(a: i128, b: i128) -> Unfit
    requires left { PartFits a }
    requires right { PartFits b }
    ensures { result ≡ product_step a b }
{
    Unfit {
        op: Op::Mul,
        left: fraction(a, 1),
        right: fraction(b, 1),
    }
}

// A difference that does not fit, as a refusal.
pub(crate) fn unfit_difference(a: i128, b: i128) -> Unfit
    requires left { PartFits a }
    requires right { PartFits b }
    ensures { result ≡ difference_step a b }
{
    Unfit {
        op: Op::Sub,
        left: fraction(a, 1),
        right: fraction(b, 1),
    }
}

// Which of the three steps does not fit first.
pub(crate) fn unfit_combination(a: i128, u: i128, b: i128, v: i128) -> Unfit
    requires own { PartFits a }
    requires own_factor { PartFits u }
    requires other { PartFits b }
    requires other_factor { PartFits v }
    requires unfit { ¬ (All StepFits (combination_steps a u b v)) }
    ensures { IsFirstUnfit (combination_steps a u b v) result }
{
    let Some(left) = product(a, u) else {
        return unfit_product(a, u);
    };
    let Some(right) = product(b, v) else {
        return unfit_product(b, v);
    };
    unfit_difference(left, right)
}

// The quotient of two numbers of 64 bits.
fn short_quotient(n: i64, d: i64) -> i64
    requires positive { pos 0 <ℤ d }
    requires divides { nat_abs d ∣ nat_abs n }
    ensures { result *ℤ d ≡ n }
{
    n / d
}

// The quotient of a number by a divisor of it.
pub(crate) fn exact_quotient(n: i128, d: i128) -> i128
    requires positive { pos 0 <ℤ d }
    requires fits { PartFits n }
    requires divides { nat_abs d ∣ nat_abs n }
    ensures value { result *ℤ d ≡ n }
    ensures fits { PartFits result }
{
    if let (Ok(n), Ok(d)) = (i64::try_from(n), i64::try_from(d)) {
        return short_quotient(n, d) as i128;
    }
    n / d
}

/// The order of n / b and m / d. No product of more than 128 bits is made.
pub fn compare_quotients(n: i128, b: i128, m: i128, d: i128) -> Ordering
    requires left { pos 0 <ℤ b }
    requires right { pos 0 <ℤ d }
    ensures { result ≡ int_cmp (n *ℤ d) (m *ℤ b) }
{
    if let (Ok(n), Ok(b), Ok(m), Ok(d)) = (
        i64::try_from(n),
        i64::try_from(b),
        i64::try_from(m),
        i64::try_from(d),
    ) {
        return short_product(n, d).cmp(&short_product(m, b));
    }
    cmp_signed_quotients(n, b.unsigned_abs(), m, d.unsigned_abs())
}
