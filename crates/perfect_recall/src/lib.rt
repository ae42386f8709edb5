//! Perfect recall: whether each player of a tree, at each of the player's information sets, knows
//! all of the player's own earlier sets and actions.
//!
//! Callers may rely on: `find_recall` gives the last own set and action before each set, or the
//! first player who forgets, with the set and two nodes; `recalls_are_single`,
//! `recalls_are_answered`.
//! Definitions: `specs::Found` says what is found of a tree (`recall_of`); `game_theory` says what
//! perfect recall is.
//! Private words: `specs::LastEdges` and `specs::Members`: histories are compared by their ends.
//! Lemmas for callers: `proofs::HistoryLemmas` on own histories; `MemberLemmas` on a set's nodes.
//! A change here touches: the refusal `Forgets`, `sequence_form`, `verdicts`, `ne_checker`.
#![tactic(auto)]

mod find;
mod paths;
mod recall;

pub use find::{find_recall, recalls_are_answered, recalls_are_single};
pub use recall::{Forgets, Recall, RecallStop};
