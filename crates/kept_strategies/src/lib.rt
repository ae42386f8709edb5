//! The strategies of a table of two players that are kept where strictly dominated ones are removed
//! round by round, and the table over them.
//!
//! Callers may rely on: `undominated` gives the kept strategies of both players and their table, or
//! the first reason why they are not looked for; by laws of `extreme_equilibria` elimination loses
//! no equilibrium.
//! Definitions: `specs::Kept` says what the table over the kept strategies is, and what a table
//! answers (`kept_of`).
//! Private words: `specs::Comparisons`, what is known of pairs of strategies.
//! Lemmas for callers: `proofs::EliminationLemmas` on kept strategies (`kept-all`),
//! `KeptSingleLemmas` on what a table answers.
//! A change here touches: `enummixed`, `refusals`, `gambit_tools`.
#![tactic(auto)]

mod elimination;
mod kept;
mod kept_stop;

pub use kept::{Kept, kept_forms_are_answered, kept_forms_are_single, undominated};
pub use kept_stop::KeptStop;
