//! A sequence form as data: both players' sides, the leaves of a game, the cells that sum them up,
//! and the extreme payoffs; and both players' plans.
//!
//! Callers may rely on: `SeqForm::of_leaves` gives the cells that are the sums of the leaves, or
//! the first step that does not fit; `gains_are_not_negative` and `costs_are_not_negative`;
//! `Side::own_set` and `Side::set_entry` give a set's row and its entries, and `dense` the matrix
//! of the numbers of cells; `rows` and `program_size` count what a form's problems have.
//! Definitions: `specs::Data` says what each form keeps and which sequence form it stands for,
//! `Cells` what the cells are, `Steps` whether the steps of leaves fit, `Matrices` numbers of cells
//! as a matrix, `Sizes` the sizes of a form and of its problems, `PlanPairs` two plans;
//! `sequence_forms` has the rows of plans.
//! Private words: `specs::Gathered`, cells while they are summed up, and `FormCodes`, how a form is
//! stored.
//! Lemmas for callers: `proofs::GainLemmas` on gains and costs, `CellSumLemmas` on cells,
//! `StepStageLemmas` on steps, `OneFormLemmas`, that there is at most one form over leaves.
//! A change here touches: `sequence_form`, `zero_sum_lp`, `lemke_pivot` and
//! `behaviour_profile`.
#![tactic(auto)]

ghost use Rattle.std.specs.Prelude.{◌≡◌, ℕ, List};
ghost use Rattle.answers.specs.Answers.{IsSingle};
ghost use Rattle.rational.specs.Rational.{◌≤ℚ◌, zero_ℚ};
ghost use Rattle.sequence_forms.specs.Prices.{costs, gains};
ghost use Rattle.sequence_data.specs.declared.types.Cell.{Cell};
ghost use Rattle.sequence_data.specs.declared.types.Leaf.{Leaf};
ghost use Rattle.sequence_data.specs.Cells.{AreCells};
ghost use Rattle.sequence_data.specs.Data.{FormData, IsFormData, form};
ghost use Rattle.sequence_data.specs.Steps.{gathering_in};

mod cells;
mod form;
mod matrix;
mod payoffs;
mod plans;
mod set_rows;
mod sizes;
mod steps;
mod stop;
mod types;

pub use form::{SeqForm, Side};
pub use matrix::dense;
pub use plans::Plans;
pub use sizes::{Counts, program_size, rows, side_counts};
pub use steps::{product, sum};
pub use stop::SeqStop;
pub use types::{Cell, Leaf, SetRow};

/// Leaves have at most one list of cells.
pub fn cells_are_one()
    ensures { (leaves : List Leaf) (one other : List Cell) → AreCells leaves one
        → AreCells leaves other → one ≡ other }
{}

/// Leaves have at most one answer: that all their steps fit, or the first that does not.
pub fn gatherings_are_single()
    ensures { (leaves : List Leaf) → IsSingle (gathering_in leaves) }
{}

/// No gain over the least payoff is negative.
pub fn gains_are_not_negative()
    ensures { (f : FormData) (r q : ℕ) → IsFormData f → zero_ℚ ≤ℚ gains (form f) f.least_one r q }
{}

/// No cost under the greatest payoff is negative.
pub fn costs_are_not_negative()
    ensures one { (f : FormData) (r q : ℕ) → IsFormData f
        → zero_ℚ ≤ℚ costs (form f) 0 f.greatest_one r q }
    ensures two { (f : FormData) (r q : ℕ) → IsFormData f
        → zero_ℚ ≤ℚ costs (form f) 1 f.greatest_two r q }
{}
