//! The nodes of a game tree as files write them, and the tree that they describe: definitions and
//! laws.
//!
//! Callers may rely on: the three laws below, that what is built from written nodes is what they
//! describe.
//! Definitions: `specs::Written` has the nodes as they are written, `Described` the tree that they
//! describe, `Building` how a tree grows node by node.
//! A change here touches: `tree_grammar` and `efg_reader`, which read such nodes, and what `run`
//! says of trees.
#![tactic(auto)]

ghost use Rattle.written_trees.specs.Laws.{BuiltIsDescribed, DescribedIsBuilt, LimitsAreExact};

/// What is built from written nodes is the tree that they describe.
pub fn built_is_described()
    ensures { BuiltIsDescribed }
{}

/// The tree that written nodes describe is built from them.
pub fn described_is_built()
    ensures { DescribedIsBuilt }
{}

/// A further node passes a limit where its number or its depth says so.
pub fn limits_are_exact()
    ensures { LimitsAreExact }
{}
