//! The reduced strategies of the players of a tree: their number, and the list of them, found by a
//! walk over each player's decisions. A choice list gives each own set an action or none; a reduced
//! strategy is one with an action exactly at the sets of which it reaches a decision.
//!
//! Callers may rely on: `Decisions::list` gives each of a player once, in order; `Decisions::count`
//! their number up to a limit, without a walk if no set has two decisions; `set_places` the index
//! of each set among its owner's.
//! Definitions: `specs::Decisions` has the decisions of each player of a tree, `OwnNumbers` the
//! numbers that are a player's own.
//! Private words: `specs::Reduced`, decisions that are linked (`AreLinked`) and their reduced
//! strategies (`AreReducedBy`); `Ends` and `LeftOut`, how the code walks and counts; `Made`, the
//! decisions while they are made.
//! Lemmas for callers: `proofs::EndListLemmas` on the ends of a walk, `AscendingOrderLemmas` on
//! lists in order, `ActionCountLemmas` on own sets.
//! A change here touches: `reduced_form`, `enumpure_trees`, `sequence_form`, `behaviour_profile`,
//! `verdicts`.
#![tactic(auto)]

mod count;
mod decision;
mod decisions;
mod kept;
mod places;
mod strategies;
mod walk;

pub use places::set_places;
pub use strategies::Decisions;
