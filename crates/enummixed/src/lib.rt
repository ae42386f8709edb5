//! The tool `enummixed`: the extreme equilibria of a game of two players, a line each.
//!
//! Callers may rely on: `list_extreme_equilibria` gives the text, or the first reason why there is
//! none; `list_equilibria_of_kept` the same by the kept strategies, with 0 at the others; and
//! `pairs_are_as_many_as_extreme_equilibria`, by which who counts the pairs counts these.
//! Definitions: `specs::ExtremeText` says what the text is and what a game answers, `Used` which
//! points are scaled, `Told` how the reasons of the parts are named.
//! Private words: `specs::Order` and `specs::Spread`, how lines are sorted and points spread.
//! Lemmas for callers: `proofs::VertexPairLemmas`, what the stages of a game's pairs give together.
//! A change here touches: what `enummixed` and `make` answer, and `enummixed_texts_are_extreme`.
#![tactic(auto)]

ghost use Rattle.enummixed.specs.AnsweredLaws.{ExtremePairsAreAnswered, ExtremeTextsAreAnswered};
ghost use Rattle.enummixed.specs.Laws.{ExtremePairsAreSingle, ExtremeTextsAreSingle, PairsAreAsManyAsExtremeEquilibria};

mod extreme;
mod listing;
mod order;
mod points;
mod spread;
mod stop;
mod writing;

pub use extreme::{ExtremePairs, extreme_pairs};
pub use listing::{list_equilibria_of_kept, list_extreme_equilibria};
pub use stop::MixedStop;

/// A game has one answer at most: a list of pairs, or why it has none.
pub fn extreme_pairs_are_single()
    ensures { ExtremePairsAreSingle }
{}

/// A game has one answer at most: a text of extreme equilibria, or why it has none.
pub fn extreme_texts_are_single()
    ensures { ExtremeTextsAreSingle }
{}

/// A game, each of whose players has a strategy, has an answer: a list of pairs, or why it has
/// none.
pub fn extreme_pairs_are_answered()
    ensures { ExtremePairsAreAnswered }
{}

/// A game each of whose players has a strategy has an answer: a text of extreme equilibria, or why
/// it has none. So has a table, where its text is found by its kept strategies.
pub fn extreme_texts_are_answered()
    ensures { ExtremeTextsAreAnswered }
{}

/// The pairs of a game are as many as its extreme equilibria.
pub fn pairs_are_as_many_as_extreme_equilibria()
    ensures { PairsAreAsManyAsExtremeEquilibria }
{}
