//! The check of lines with profiles of a game: the verdict on each line.
//!
//! Callers may rely on: `check_table_lines` and `check_tree_lines` give the verdicts of all lines,
//! or the first line that is refused, or that the text is too long; by the laws
//! `table_checks_tell_equilibria` and `tree_checks_tell_equilibria` (of trees, where all recall)
//! each text is right by the definition of equilibrium.
//! Definitions: `specs::LineChecks` has the verdicts of lines (`table_check`, `tree_check`),
//! `Lines` the texts of all lines, one after another, `Texts` the texts of verdicts, `CheckLaws`
//! what these say of equilibria.
//! A change here touches: `gambit_tools` and `refusals`: the text of `check`, byte for byte, and its
//! refusals.
#![tactic(auto)]

mod kept_text;
mod stops;
mod table_lines;
mod texts;
mod tree_lines;

pub use stops::CheckStop;
pub use table_lines::{
    check_table_lines, table_checks_are_answered, table_checks_are_single,
    table_checks_tell_equilibria,
};
pub use tree_lines::{
    check_tree_lines, tree_checks_are_answered, tree_checks_are_single, tree_checks_tell_equilibria,
};
pub use verdicts::{Mixed, Scratch, TableVerdict, TreeVerdict, check_table, check_tree};
