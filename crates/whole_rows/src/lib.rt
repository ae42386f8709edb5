//! Rows of whole numbers that stand for fractions, and what a start and a pivot make of them.
//!
//! Callers may rely on: `write_starts` and `write_pivot` write the defined rows, or give the first
//! step in order that does not fit; `rows_are_determined` by their fractions.
//! Definitions: `specs::Rows` has rows and their fractions, `Steps` the steps, `StartRows` and
//! `Pivots` their order, and `PivotedRows` what a pivot makes of a row.
//! Private words: `specs::Shorts`, and the modules `divisors`, `places` and `rows`.
//! Lemmas for callers: `proofs::RowFitLemmas`, that rows fit or one is the first that does not;
//! `RowValueLemmas`.
//! A change here touches: `lex_tableau`; the order of steps also touches `basis_enum`,
//! `zero_sum_lp` and `lemke_pivot`.
#![tactic(auto)]

ghost use Rattle.whole_rows.specs.Laws.{RowsAreDetermined};

mod arithmetic;
mod divisors;
mod pivots;
mod places;
mod rows;
mod starts;

pub use arithmetic::{compare_quotients, fraction};
pub use pivots::write_pivot;
pub use starts::{UnfitRow, write_starts};

/// The whole numbers of a row are determined by its fractions.
pub fn rows_are_determined()
    ensures { RowsAreDetermined }
{}
