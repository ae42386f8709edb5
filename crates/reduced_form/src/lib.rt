//! The reduced strategic form of a tree.
//!
//! Callers may rely on: `reduce` gives the form, whose cells are what every completion pays, or the
//! first reason why there is none. `Strategies` are the lists that `Strategies::new` takes and
//! `Strategies::lists` gives.
//! Definitions: `specs::ReducedForm` has the form and the names of strategies, `Limits` its limits,
//! `Stops` what a tree answers (`reduced_form_of`).
//! Private words: `specs::Counts` and `Cells`, how the code counts and fills tables.
//! Lemmas for callers: `proofs::FormAnswerLemmas` on what a tree answers, `FormLaws` and
//! `FormCountLemmas` on the table, `OneFormLaws`.
//! A change here touches: `behaviour_profile`, `enumpure_trees`, `two_player_tools`,
//! `refusals`, `gambit_tools`.
#![tactic(auto)]

mod cells;
mod form;
mod limits;
mod names;
mod stop;
mod strategies;

pub use form::{Reduced, forms_are_answered, forms_are_single, reduce};
pub use stop::ReduceStop;
pub use strategies::Strategies;
