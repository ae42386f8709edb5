//! Tableaux of linear systems in whole numbers, with the pivot and the lexicographic row.
//!
//! Callers may rely on: `Work::pivot` pivots, or gives `Unfit` exactly at the first step that does
//! not fit and changes nothing; `Tableau::ratio_row`; `PivotCount` counts pivots at no cost.
//! Definitions: `specs::Rows` has tableaux and the fractions that they stand for, `Starts` systems
//! and their starts, `Pivots` the steps of a pivot in order and the tableau that it makes where
//! they fit, `Ratio` the lexicographic row.
//! Private words: `specs::Keys` and the module `ratio`, which compares rows by their keys;
//! `columns`, which keeps where the start's variables stand.
//! Lemmas for callers: `proofs::SystemLemmas` and `TableauLemmas`, determined by their fractions.
//! A change here touches: `zero_sum_lp`, `lemke_pivot`, `reply_polytope`, `basis_enum` and
//! `enummixed`.
#![tactic(auto)]

ghost use Rattle.lex_tableau.specs.AnsweredLaws.{StartsAreAnswered};
ghost use Rattle.lex_tableau.specs.Laws.{StartsAreSingle, TableauxAreDetermined};

mod columns;
mod pivot_count;
mod ratio;
mod system;
mod tableau;
mod unfit_pivot;
mod work;

pub use pivot_count::PivotCount;
pub use system::{System, numbered};
pub use tableau::{PivotStop, StartStop, Tableau};
pub use unfit_pivot::UnfitPivot;
pub use work::Work;

/// The whole numbers of a tableau are determined by its fractions.
pub fn tableaux_are_determined()
    ensures { TableauxAreDetermined }
{}

/// A system has at most one answer: its start, or the first step of its rows that does not fit.
pub fn starts_are_single()
    ensures { StartsAreSingle }
{}

/// A system has an answer: its start, or the first step of its rows that does not fit.
pub fn starts_are_answered()
    ensures { StartsAreAnswered }
{}
