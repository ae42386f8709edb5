//! The equilibrium of a constant-sum game by one linear program of two players' realisation plans.
//!
//! Callers may rely on: `program` and `Lp::solve` give the program and the end of its path, of
//! which there is one each, and only one, in at most 2^n pivots for variables below n;
//! `optimal_plans_prove_the_value`.
//! Definitions: `specs::Paths` has linear programs and the path of the simplex method, `Programs`
//! the program of plans, `Systems` its rows, `Plans` plans made of raw weights, `FormPrograms` what
//! a form answers.
//! Private words: `specs::PlanLists`, and the modules that make weights into plans.
//! Lemmas for callers: `proofs::ProgramAnswerLemmas`, `PathEndLemmas` and `PlanAnswerLemmas`, that
//! there is at most one of each; `AnsweredProgramLemmas`, `AnsweredPathLemmas` and
//! `AnsweredPlanLemmas`, that there is one.
//! A change here touches: what `lp` answers and refuses, and `lp_texts_are_solutions`.
#![tactic(auto)]

mod form_program;
mod gains;
mod laws;
mod lp;
mod optimum;
mod path;
mod raising;
mod stop;
mod sums;
mod system;
mod trimming;
mod weights;

pub use form_program::program;
pub use laws::{
    ends_are_answered, ends_are_single, optima_prove_the_value, optimal_plans_prove_the_value,
    optimal_plans_solve_tables, optimal_plans_solve_trees, paths_are_determined, paths_end,
    paths_go_on, plans_are_answered, plans_are_single, programs_are_answered,
    programs_are_feasible_and_bounded, programs_are_of_forms, programs_are_single,
    the_objective_row_grows,
};
pub use lp::Lp;
pub use optimum::Optimum;
pub use sequence_data::Plans;
pub use stop::{LpStop, NotConstant, PlanStop};
