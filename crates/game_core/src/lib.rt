//! Games as the readers hand them on: names, tables, trees and the limits on their sizes; the
//! tokens of their files with their offsets; and tables whose payoffs are drawn from a seed.
//!
//! Callers may rely on: a `Table` and a `Tree` keep their invariants; `trees_are_game_trees`;
//! the methods of a `Tree` give the parts of its game; `last_moves` the last moves above its nodes;
//! `made_tables_pay_draws`, of `make_table`.
//! Definitions: `specs::Table` and `TreeGame` say what a table and a tree stand for (`game_of`,
//! `game_of_tree`), `Tree` what makes one, `LastMoves` which moves are the last, `Limits` when a
//! count is within its limit, `TokenList` what a list of tokens is, `Spacing` what tokens keep,
//! `MadeTables` which tables are drawn from a seed, `MadeTableLaws` what they pay,
//! `TreeCodes` how the parts of trees are coded where models keep them, `Texts` how what is counted
//! is displayed.
//! Private words: `specs::OwnSets`, how a tree keeps its own sets.
//! Lemmas for callers: `proofs::TableCountLemmas` on counts of strategies, `SameTableLemmas` on
//! tables with the same parts, `StrideLemmas`, `ParentPathLemmas` on subtrees, `SetReadLemmas` on
//! sets that are read.
//! A change here touches: all contracts that name a game, from the readers to `run`.
#![tactic(auto)]

mod draws;
mod game;
mod made_table;
mod moves;
mod name;
mod profiles;
mod table;
mod text_limit;
mod token;
mod too_large;
mod tree;
mod tree_parts;

pub use game::Game;
pub use made_table::{made_tables_pay_draws, make_table};
pub use moves::{LastMove, last_moves};
pub use name::{Name, copied, copied_names};
pub use outside::{
    Gate, Inputs, MemInputs, MemSink, OpenFailed, OpenGate, ReadFailed, RealInputs, RealSink, Sink,
    WriteFailed,
};
pub use profiles::{profile_count, push_sure, set_profile};
pub use table::{MOST_PAYOFFS, Table};
pub use text_limit::{MOST_TEXT, too_long_text};
pub use token::{Spanned, Token, Tokens};
pub use too_large::{MOST_ROWS, TooLarge, What};
pub use tree::{
    Action, InfoSet, Kind, Node, Outcome, Tree, sets_are_numbered_by_first_nodes,
    trees_are_game_trees,
};
