//! Exact fractions in lowest terms, whose parts fit 128 bits.
//!
//! Callers may rely on: `Frac::add`, `sub`, `mul` and `div` give the exact value, or `Unfit` with
//! the operation and both operands exactly where the step does not fit; nothing here takes memory.
//! Definitions: a `Frac` is a `ℚ` to contracts; `specs::Fraction` says which fit (parts up to 2^127
//! - 1 in size), `specs::Short` which are short, `specs::Steps` when a step fits, which of many is
//! the first that does not, and what they give, `specs::FirstUnfit` the first thing with such a
//! step, `specs::Texts` how a step is displayed; a fraction is displayed as `rational` says.
//! Private words: what `euclid`, `fitting`, `products` and `sums` do not hand on.
//! Lemmas for callers: `proofs::PartLemmas` and `ReductionLemmas` on parts; `StepRunLemmas`,
//! `StepPartLemmas` and `FirstUnfitLemmas` on steps.
//! A change here touches: which steps fit, and so every refusal `Range`.
#![tactic(auto)]

mod euclid;
mod fitting;
mod frac;
mod products;
mod steps;
mod sums;

pub use euclid::{cmp_signed_quotients, gcd};
pub use fitting::{is_short, signed};
pub use frac::Frac;
pub use steps::{Op, Unfit};
