//! An equilibrium of a game with two players by complementary pivots.
//!
//! Callers may rely on: `problem` and `Lcp::solve` give the problem and the end of its path, of
//! which there is one each, and only one: a solution or the first step that does not fit, and no
//! ray; `solutions_solve_trees`.
//! Definitions: `specs::Problems` has problems w = b + M z and that of two sides, `ProblemPaths`
//! the path of complementary pivots, `FormProblems` what a form answers, `Ends` the end of a path;
//! `Systems`, `Vectors` and `Values` have the rows of a problem and what a tableau gives.
//! Lemmas for callers: `proofs::ProblemAnswerLemmas` and `PathEndLemmas`, that there is at most
//! one; `AnsweredProblemLemmas` and `AnsweredPathLemmas`, that there is one; `PathStartLemmas`.
//! A change here touches: what `lcp` answers and refuses, and `lcp_texts_are_equilibria`.
#![tactic(auto)]

mod costs;
mod form_problem;
mod laws;
mod lcp;
mod matrix;
mod path;
mod stop;
mod system;

pub use form_problem::problem;
pub use laws::{
    always_a_leaving_row, ends_are_answered, ends_are_single, first_rows_exist, least_is_negative,
    no_basis_occurs_twice, paths_are_short, paths_are_unique, paths_end_in_rays, paths_end_solved,
    problems_are_answered, problems_are_of_forms, problems_are_single, solutions_have_plans,
    solutions_solve_tables, solutions_solve_the_form, solutions_solve_trees, there_is_no_ray,
};
pub use lcp::{Lcp, Solution};
pub use stop::LcpStop;
