//! The rational numbers, for contracts and proofs.
//!
//! Callers may rely on: the functions without a body, each a law: lowest terms, a commutative ring,
//! an ordered field, decided order, the greatest and the least, midpoints, sums and means.
//! Definitions: `specs::Rational` has `ℚ` in lowest terms, so that equality is `≡`, with `frac` and
//! `whole`; `Sum` sums below a bound, `Extremes` the greatest and the least of numbers, `Tests`
//! tests that compute, `Text` the text of a number, `Laws` the laws.
//! Lemmas for callers: the simplest first, `refl` at literals, `simp` with `proofs::Rules`, `ring`
//! and `combine` of `Ring`, `linear` of `Linear`; `Examples` uses each once.
//! A change here touches: every proof about payoffs, probabilities and tableaux, since nearly all
//! crates stand on it.
#![tactic(auto)]

ghost use Rattle.rational.specs.Laws.{GcdIsGreatest, FractionsStandForNumbers, IsCommutativeRing, IsOrderedField, OrderIsDecidable, ExtremesAreSingle, MidpointsLieBetween, SumsAddUp, MeansAreAtMost};
ghost use Rattle.rational.specs.RingLaws.{WholeNumbersAreARing};

/// The greatest common divisor of two numbers divides both, and each common divisor divides it.
pub fn gcd_is_greatest()
    ensures { GcdIsGreatest }
{}

/// Fractions are compared, added, multiplied, negated and turned over as in school, and each number
/// is one fraction in lowest terms.
pub fn fractions_stand_for_numbers()
    ensures { FractionsStandForNumbers }
{}

/// Sums and products of rationals obey the laws of a commutative ring.
pub fn is_a_commutative_ring()
    ensures { IsCommutativeRing }
{}

/// Each rational but 0 has an inverse, and sums and products keep the order.
pub fn is_an_ordered_field()
    ensures { IsOrderedField }
{}

/// Order and equality of rationals are decided by tests that compute, and so are the order and the
/// sign that code answers.
pub fn order_is_decidable()
    ensures { OrderIsDecidable }
{}

/// Numbers have at most one greatest and at most one least.
pub fn extremes_are_single()
    ensures { ExtremesAreSingle }
{}

/// Between two different rationals lies their midpoint.
pub fn midpoints_lie_between()
    ensures { MidpointsLieBetween }
{}

/// Sums over the numbers below a bound add, scale, exchange, join and compare as sums do.
pub fn sums_add_up()
    ensures { SumsAddUp }
{}

/// A mean is at most the greatest value, and reaches it exactly where it weighs greatest values
/// alone.
pub fn means_are_at_most()
    ensures { MeansAreAtMost }
{}

/// Sums and products of whole numbers obey the laws of a commutative ring.
pub fn whole_numbers_are_a_ring()
    ensures { WholeNumbersAreARing }
{}
