//! Which tokens stand for which game tree: the grammar of files of trees, the functions that read
//! them, and the readers of a file's parts.
//!
//! Callers may rely on: `files_have_one_tree`; `files_are_read`, in both directions; `read_front`,
//! `player`, `read_set` and `read_outcome` take off the tokens what the reading function of their
//! part does, or give the fault's kind and the tokens left; `Sets` and `Outcomes` are seen as
//! lists, in the order of first use.
//! Definitions: `specs::TreeFile` has the grammar, `TreePieces` the words of nodes and the brace
//! after actions, `TreeParsing` the reading functions, and `UseCodes` how sets and outcomes that
//! are seen so far are stored, `Texts` how a fault's kind is displayed. What a fault of each kind
//! is stands in `tree_faults`.
//! Private words: `specs::Uses`, how sets and outcomes are kept.
//! Lemmas for callers: `proofs::NodesReadLaws`, that what is read as nodes are nodes; `FileLaws`
//! and `WholeFileLaws`, that what is read is a file, and that a file is read.
//! A change here touches: `tree_faults`, `efg_reader`, which reads such files, and what `refusals`
//! says of faults.
#![tactic(auto)]

ghost use Rattle.std.specs.Prelude.{◌≡◌, ◌<◌, ◌^◌, List, length, Ok};
ghost use Rattle.game_core.specs.Tree.{GameTree};
ghost use Rattle.game_core.specs.declared.token.Token.{Token as token};
ghost use Rattle.tree_grammar.specs.TreeFile.{IsTreeFile};
ghost use Rattle.tree_grammar.specs.TreeParsing.{parse_tree};

mod actions;
mod front;
mod kinds;
mod outcomes;
mod pieces;
mod sets;

pub use front::{Front, read_front};
pub use kinds::EfgKind;
pub use outcomes::{Outcomes, read_outcome};
pub use pieces::{begins_node, player};
pub use sets::{Sets, read_set};

/// The tokens of a file stand for one tree at most.
pub fn files_have_one_tree()
    ensures { (tokens : List token) (one other : GameTree) → IsTreeFile tokens one
        → IsTreeFile tokens other → one ≡ other }
{}

/// A tree is read exactly where the tokens are a file of it.
pub fn files_are_read()
    ensures sound { (tokens : List token) (tree : GameTree) → length tokens < 2 ^ 32
        → parse_tree tokens ≡ Ok tree → IsTreeFile tokens tree }
    ensures complete { (tokens : List token) (tree : GameTree) → IsTreeFile tokens tree
        → parse_tree tokens ≡ Ok tree }
{}
