//! The sequence form of a game with two players: of a tree in which the players recall, and of a
//! table.
//!
//! Callers may rely on: `build` and `build_table` give the form, or the first reason why there is
//! none; by law it stands for the game, and two plans pay by it what they pay in the game.
//! Definitions: `specs::Forms` says what a tree and a table answer, `Laws` what a form stands for,
//! `Sequences` the sides of a tree, `Paths` its leaves and their steps; `sequence_data` has the
//! sizes.
//! Lemmas for callers: `proofs::FormLemmas`, `KeptFormLemmas`, `Laws` and `TableLeafLemmas` on
//! built forms.
//! A change here touches: `behaviour_profile`, `two_player_tools`, `refusals`, `gambit_tools`: the
//! stages of what `lp` and what `lcp` print, and their laws.
#![tactic(auto)]

ghost use Rattle.answers.specs.Answered.{IsAnswered};
ghost use Rattle.answers.specs.Answers.{IsSingle};
ghost use Rattle.game_core.specs.Table.{GameTable, IsTable};
ghost use Rattle.game_core.specs.Tree.{GameTree, IsGameTree};
ghost use Rattle.sequence_form.specs.Forms.{table_form, tree_form};
ghost use Rattle.sequence_form.specs.Laws.{
  TableFormsPayPlans,
  TableFormsStandForTables,
  TreeFormsPayPlans,
  TreeFormsStandForTrees,
};

mod counts;
mod paths;
mod sequences;
mod table;
mod tree;

pub use counts::{counts_table, counts_tree};
pub use sequence_data::{
    Cell, Counts, Leaf, Plans, SeqForm, SeqStop, SetRow, Side, program_size, rows,
};
pub use table::build_table;
pub use tree::build;

/// A tree has at most one answer: its form, or the reason why it has none.
pub fn tree_forms_are_single()
    ensures { (t : GameTree) → IsSingle (tree_form t) }
{}

/// A tree has an answer: its form, or the reason why it has none.
pub fn tree_forms_are_answered()
    ensures { (t : GameTree) → IsGameTree t → IsAnswered (tree_form t) }
{}

/// A table has at most one answer: its form, or the reason why it has none.
pub fn table_forms_are_single()
    ensures { (t : GameTable) → IsSingle (table_form t) }
{}

/// A table has an answer: its form, or the reason why it has none.
pub fn table_forms_are_answered()
    ensures { (t : GameTable) → IsTable t → IsAnswered (table_form t) }
{}

/// The form of a tree is its sequence form within its bounds.
pub fn tree_forms_stand_for_trees()
    ensures { TreeFormsStandForTrees }
{}

/// Two plans pay by the form of a tree what their behaviour pays on the tree.
pub fn tree_forms_pay_plans()
    ensures { TreeFormsPayPlans }
{}

/// The form of a table is its sequence form within its bounds.
pub fn table_forms_stand_for_tables()
    ensures { TableFormsStandForTables }
{}

/// Two plans pay by the form of a table what the strategies' weights in them pay.
pub fn table_forms_pay_plans()
    ensures { TableFormsPayPlans }
{}
