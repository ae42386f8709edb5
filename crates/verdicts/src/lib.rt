//! Whether given play is an equilibrium, and where it is none the first player who can do better;
//! and what a behaviour pays each player of a tree.
//!
//! Callers may rely on: `check_table` and `check_tree` give the verdict, or the first step that
//! does not fit; a profile has one (of trees, where all recall), and only one; by law it says where
//! equilibria are. `behaviour_payoffs` gives what a behaviour pays each player of a tree, or the
//! first step that does not fit; `behaviour_payoffs_are_single`.
//! Definitions: `specs::TableChecks` and `specs::TreeVerdicts` have the verdicts, `TreeSteps` the
//! steps on a tree, `BehaviourPayoffs` why payoffs are not computed, `TreeScratches` the reply that
//! is left in the room for a check; `TableLaws` and `TreeVerdictLaws` what verdicts say of
//! equilibria; `AnsweredLaws` that there are verdicts.
//! Private words: `specs::TableReplies`, `TreeReplies`, `TreeBehaviours` and `TreeWeights`.
//! Lemmas for callers: `proofs::TableSingleLemmas`, that there is at most one verdict;
//! `AlikeBehaviourLemmas`, `AlikeVerdictLemmas` and `SameEntryLemmas`, on behaviours with the same
//! entries.
//! A change here touches: `ne_checker`, `gambit_tools` and what `check` prints; `two_player_tools`,
//! whose `lp -P` and `lcp -P` ask what a behaviour pays.
#![tactic(auto)]

mod mixed;
mod payoffs;
mod scratch;
mod tables;
mod trees;
mod trees_behaviour;
mod trees_player;
mod trees_replies;

pub use mixed::Mixed;
pub use payoffs::{behaviour_payoffs, behaviour_payoffs_are_single};
pub use scratch::Scratch;
pub use tables::{
    TableVerdict, check_table, table_verdicts_are_single, table_verdicts_exist,
    table_verdicts_find_equilibria,
};
pub use trees::{
    TreeVerdict, check_tree, tree_verdicts_are_single, tree_verdicts_exist,
    tree_verdicts_find_equilibria,
};
