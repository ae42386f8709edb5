// The tree as far as it is partial.
ghost use Rattle.std.specs.Prelude.{◌≡◌, ◌≢◌, ◌<◌, suc, List, [], None, Some, All, length, IfOk, OnOk};
ghost use Rattle.written_trees.specs.Building.{PartialOutcome, passed, root_alone, add_branches};
ghost use Rattle.tree_grammar.specs.TreeParsing.{grown, is_whole};
ghost use Rattle.efg_reader.specs.States.{branchings_of, tree_of, HasTaken};

use game_core::{Kind, Node, What};
use std::alloc::{AllocError, Global};
use std::marker::Model;
use tree_grammar::{Outcomes, Sets};

/// The most nodes of a tree.
pub(crate) const MOST_NODES: usize = 65536;

/// The most edges from the root to a node.
pub(crate) const MOST_DEPTH: u32 = 1024;

/// A node some of whose actions lead nowhere yet; before the root there is one of these without a
/// node.
#[derive(Clone, Copy, Debug, PartialEq, Eq)]
pub struct Branching {
    /// The node, and nothing before the root.
    pub node: Option<u32>,
    /// The first action that leads nowhere yet.
    pub next: u32,
    /// How many actions there are.
    pub count: usize,
    /// How many edges below the root the children lie.
    pub depth: u32,
}

/// The set that a node uses, and who chooses there.
#[derive(Clone, Copy, Debug, PartialEq, Eq)]
pub struct UsedSet {
    /// Who chooses.
    pub kind: Kind,
    /// The number of the information set, and nothing at an end.
    pub set: Option<u32>,
}

/// The nodes of a tree that is partial. There are never more than a tree may have.
#[derive(Drop)]
pub struct Nodes {
    /// The nodes in prefix order.
    pub list: Vec<Node>,
    /// The nodes with open branches; the last one has the first of them.
    pub branchings: Vec<Branching>,
}

impl Model for Nodes {
    ghost use Rattle.efg_reader.specs.PartialCodes.{PartialNodes, code_of_partial_nodes};

    ghost Value = { PartialNodes };

    ghost coded = { code_of_partial_nodes };

    ghost use Rattle.efg_reader.specs.States.{nodes_of, AreNodes};

    ghost view = { λ n. nodes_of n.list.items n.branchings.items };

    ghost invariant = { λ n. AreNodes (nodes_of n.list.items n.branchings.items) };
}

/// The tree as far as it is partial. There are never more sets than nodes, nor more outcomes.
#[derive(Drop)]
pub struct Builder {
    /// The nodes.
    pub nodes: Nodes,
    /// The sets.
    pub sets: Sets,
    /// The outcomes.
    pub outcomes: Outcomes,
}

impl Model for Builder {
    ghost use Rattle.written_trees.specs.Building.{PartialTree};
    ghost use Rattle.efg_reader.specs.PartialCodes.{code_of_partial_tree};

    ghost Value = { PartialTree };

    ghost coded = { code_of_partial_tree };

    ghost use Rattle.efg_reader.specs.States.{tree_of, IsBuilder};

    ghost view = { λ b. tree_of b.nodes b.sets b.outcomes };

    ghost invariant = { λ b. IsBuilder (tree_of b.nodes b.sets b.outcomes) };
}

// Takes the first open branch.
fn take_branch(branchings: &mut Vec<Branching>) -> Option<Branching>
    requires next { All (λ b. b.next < 4294967295) branchings.old.items }
    ensures { HasTaken (branchings_of branchings.old.items) result
        (branchings_of branchings.new.items) }
{
    let last = branchings.len().checked_sub(1)?;
    let taken = branchings[last];
    if (taken.next as usize) + 1 < taken.count {
        branchings[last].next += 1;
    } else {
        branchings.pop();
    }
    Some(taken)
}

// Adds the open branches of this node with so many actions, whose children lie at this depth.
fn add_branches(
    branchings: &mut Vec<Branching>,
    node: u32,
    count: usize,
    depth: u32,
) -> Result<(), AllocError>
    ensures { OnOk result (branchings_of branchings.new.items
        ≡ add_branches node count depth (branchings_of branchings.old.items)) }
{
    if count > 0 {
        branchings.push(Branching {
            node: Some(node),
            next: 0,
            count,
            depth,
        })?;
    }
    Ok(())
}

impl Nodes {
    /// These nodes with one more at the first open branch, with this set and this outcome.
    ///
    /// # Errors
    ///
    /// Memory ran out.
    pub fn add(self, sets: &Sets, used: UsedSet, outcome: Option<u32>) -> Result<Nodes, AllocError>
        requires free { self.branchings ≢ [] }
        requires room { passed (tree_of self [] []) ≡ None }
        ensures grown { IfOk result (λ more. (outcomes : List PartialOutcome)
            → grown (tree_of self sets.now outcomes) used.kind used.set outcome
            ≡ Some (tree_of more sets.now outcomes)) }
        ensures longer { IfOk result (λ more. length more.list ≡ suc (length self.list)) }
    {
        let Nodes {
            mut list,
            mut branchings,
        } = self;
        let Some(branching) = take_branch(&mut branchings) else {
            unreachable!();
        };
        let number = list.len() as u32;
        let count = sets.count(used.set);
        add_branches(&mut branchings, number, count, branching.depth + 1)?;
        list.push(Node {
            kind: used.kind,
            parent: branching.node,
            branch: branching.next,
            set: used.set,
            outcome,
        })?;
        Ok(Nodes { list, branchings })
    }
}

impl Builder {
    /// Nothing but the branch of the root.
    ///
    /// # Errors
    ///
    /// Memory ran out.
    pub fn new(alloc: Global) -> Result<Builder, AllocError>
        ensures { IfOk result (λ builder. builder ≡ root_alone) }
    {
        let root = Branching {
            node: None,
            next: 0,
            count: 1,
            depth: 0,
        };
        let branchings = Vec::from_slice(alloc, &[root])?;
        let nodes = Nodes {
            list: Vec::new(alloc),
            branchings,
        };
        Ok(Builder {
            nodes,
            sets: Sets::new(alloc),
            outcomes: Outcomes::new(alloc),
        })
    }

    /// Whether no branch is open.
    pub fn is_whole(&self) -> bool
        ensures { result ≡ is_whole self.now }
    {
        let nodes = &self.nodes;
        nodes.branchings.is_empty()
    }

    /// The limit that a further node would pass.
    pub fn passed(&self) -> Option<What>
        ensures { result ≡ passed self.now }
    {
        let nodes = &self.nodes;
        let branching = nodes.branchings.last()?;
        if nodes.list.len() >= MOST_NODES {
            Some(What::Nodes)
        } else if branching.depth > MOST_DEPTH {
            Some(What::Depth)
        } else {
            None
        }
    }
}
