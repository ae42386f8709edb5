//! Subgames of trees: the nodes where they begin, and the cut at each as a tree of its own.
//!
//! Callers may rely on: `subgame_roots` gives the nodes where subgames begin. `Subgames::find`
//! finds them with the nodes of their cuts, and `cut_at` gives the cut at such a node as a tree of
//! its own; `cuts_are_single`, `cuts_keep_values`, `cuts_keep_recall`, `sets_stand_in_one_cut` and
//! `cut_equilibria_are_perfect` say what holds of cuts.
//! Definitions: `specs::Roots` says where subgames begin, `Perfect` what a subgame-perfect
//! equilibrium is, `CutGames` what the cut at a node is, `CutTrees` and `MadeCuts` what is so as a
//! tree, `FoundSubgames` what was found of a tree, `CutLaws` what holds of cuts.
//! Private words: `specs::Spans`, how far subtrees and the players' sets in them reach, and
//! `CutParts`, of which parts a cut is made.
//! Lemmas for callers: `proofs::CutWalkLemmas`, `CutWorthLemmas`, `CutNodeLemmas`, `SomeCutLemmas`.
//! A change here touches: `enumpure_trees`, `two_player_tools`, `gambit_tools`, and what
//! `enumpure -P`, `lcp -P` and `lp -P` print.
#![tactic(auto)]

mod cut_laws;
mod cut_nodes;
mod cut_parts;
mod cut_sets;
mod cuts;
mod laws;
mod members;
mod roots;

pub use cut_laws::cuts_are_single;
pub use cuts::{Cut, Subgames};
pub use laws::{
    cut_equilibria_are_perfect, cuts_keep_recall, cuts_keep_values, sets_stand_in_one_cut,
};
pub use roots::subgame_roots;
