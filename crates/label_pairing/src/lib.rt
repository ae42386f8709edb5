//! Pairs of vertices that together have all labels, and the scaling of their points.
//!
//! Callers may rely on: `pairs` gives all pairs in order, or the limit with their count exactly
//! where they pass it; `scale` divides a point by the sum of its entries.
//! Definitions: `specs::Pairs` has the pairs of marked points, `Matches` the masks that complete a
//! mask, `Scaling` the steps of scaling, `Stops` what is answered.
//! Private words: the modules `candidates`, the masks among which partners are looked for, and
//! `counting`, which counts the pairs before they are listed.
//! Lemmas for callers: `proofs::AllPairLemmas` on the list of pairs; `StopLemmas` on the answers.
//! A change here touches: `enummixed`, the limit on pairs and the counts of `make`.
#![tactic(auto)]

ghost use Rattle.label_pairing.specs.AnsweredLaws.{PairsAreAnswered};
ghost use Rattle.label_pairing.specs.Laws.{PairsAreExactlyThose, PairsAreSingle};
ghost use Rattle.label_pairing.specs.Stops.{scaled_in};
ghost use Rattle.answers.specs.Answers.{IsSingle};
ghost use Rattle.answers.specs.Answered.{IsAnswered};
ghost use Rattle.rational.specs.Rational.{ℚ};
ghost use Rattle.std.specs.Prelude.{List};

mod candidates;
mod counting;
mod matching;
mod pairing;
mod scaling;

pub use matching::matches;
pub use pairing::{PairStop, pairs};
pub use scaling::{ScaleStop, scale};

/// The pairs are exactly the places at which the marks together have all bits, in ascending order.
pub fn pairs_are_exactly_those()
    ensures { PairsAreExactlyThose }
{}

/// Two lists have one answer at most: their list of pairs, or that there are too many.
pub fn pairs_are_single()
    ensures { PairsAreSingle }
{}

/// Two lists have an answer: their list of pairs, or that there are too many.
pub fn pairs_are_answered()
    ensures { PairsAreAnswered }
{}

/// A point has one answer at most: what it is when it is scaled, or the first step that does not
/// fit.
pub fn scaled_points_are_single()
    ensures { (point : List ℚ) → IsSingle (scaled_in point) }
{}

/// A point has an answer: what it is when it is scaled, or the first step that does not fit.
pub fn scaled_points_are_answered()
    ensures { (point : List ℚ) → IsAnswered (scaled_in point) }
{}
