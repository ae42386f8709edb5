//! The tool `enumpure`: the pure equilibria of a game, a line each.
//!
//! Callers may rely on: `list_pure_equilibria` gives the text of all pure equilibria, refused
//! exactly where it is too long, and `list_profiles` that of profiles that pass any test;
//! `mutual_best_replies` finds where all play best replies, and `keep_best_replies` where one
//! player does, whose payoffs stand in a `Column`.
//! Definitions: `specs::Text` says what the text is, `Stops` what a table answers within the limit
//! on texts, `Replies` best replies by the numbers of profiles and the columns of their payoffs,
//! `Ranks` the lines of profiles that pass.
//! Private words: `lengths`, which counts bytes before lines are written.
//! Lemmas for callers: `proofs::OneTextLaws` on texts within the limit; `ListedProfileLemmas`.
//! A change here touches: `enumpure_trees`, `enummixed`, `refusals`, `gambit_tools` and what
//! `enumpure` prints.
#![tactic(auto)]

mod lengths;
mod listing;
mod replies;

pub use listing::{
    ListStop, list_profiles, list_pure_equilibria, pure_texts_are_answered, pure_texts_are_single,
};
pub use replies::{Column, keep_best_replies, mutual_best_replies};
