//! How files of game trees are read.
//!
//! Callers may rely on: `read` gives the tree of a file, or where there is none a fault or a limit;
//! tokens have one answer at most, and fewer than 2^32 of them have one.
//! Definitions: `specs::Stops` has what tokens answer; the grammar and the readers of a file's
//! parts stand in `tree_grammar`, the faults in `tree_faults`.
//! Private words: `specs::States` and `PartialCodes`, what is kept while nodes are read.
//! Lemmas for callers: `proofs::FileStopLemmas`.
//! A change here touches: the trees of docs/FORMAT.md, `gambit_tools` and `refusals`.
#![tactic(auto)]

mod builder;
mod fault;
mod nodes;
mod reading;

pub use fault::{EfgFault, EfgStop};
pub use reading::{read, trees_are_answered, trees_are_single};
pub use tree_grammar::EfgKind;
