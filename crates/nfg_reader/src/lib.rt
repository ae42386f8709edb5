//! Files of games in table form, read from their tokens.
//!
//! Callers may rely on: `read` gives the table of a file; a fault with its kind and offset comes
//! exactly where the tokens are no file and do not begin as one of too many payoffs, and the limit
//! on payoffs exactly where they do; tokens have an answer, and only one.
//! Definitions: `specs::TableFile` has the grammar, `specs::Faults` the faults of tokens that are
//! no file, `specs::Stops` what tokens answer (`table_in`), `specs::Texts` how a fault's kind is
//! displayed.
//! Private words: `specs::Fronts`, what the code keeps of a front.
//! Lemmas for callers: `proofs::OneAnswerLaws`, that tokens have at most one answer.
//! A change here touches: the tables of docs/FORMAT.md, `gambit_tools` and `refusals`.
#![tactic(auto)]

mod front;
mod outcomes;
mod reading;
mod strategies;

pub use reading::{
    NfgFault, NfgKind, NfgStop, faults_are_single, files_are_read, files_have_one_table, read,
    tables_are_answered, tables_are_single,
};
