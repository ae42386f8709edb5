// The nodes of the cuts of a tree.
ghost use Rattle.std.specs.Prelude.{◌≡◌, ◌<◌, IfOk, OnOk, length, map};
ghost use Rattle.game_core.specs.TreeGame.{game_of_tree};
ghost use Rattle.subgames.specs.CutParts.{AreHomesBefore, GoesOnIn, IsAddedToCuts, cut_set, is_given_end, with_node};
ghost use Rattle.subgames.specs.FoundSubgames.{AreCutLists, AreRootMarks};

use crate::members::empty_lists;
use answers::Memory;
use game_core::Tree;
use std::alloc::Global;

/// Whether a node is an end of the cut at a root with given payoffs.
pub(crate) fn is_given_end(begins: &[bool], root: u32, node: usize) -> bool
    requires { node < length begins.now }
    ensures { result ≡ is_given_end begins.now root node }
{
    if node == root as usize {
        false
    } else {
        begins[node]
    }
}

/// The set of the tree that a node has in the cut at a root.
pub(crate) fn cut_set(tree: &Tree, begins: &[bool], root: u32, node: usize) -> Option<u32>
    requires node { node < length tree.now.nodes }
    requires begins { length begins.now ≡ length tree.now.nodes }
    ensures { result ≡ cut_set (game_of_tree tree.now) begins.now root node }
{
    if is_given_end(begins, root, node) {
        None
    } else {
        tree.set_at(node)
    }
}

// The node in whose cut a node goes on, where those of the nodes before it are known.
fn home(tree: &Tree, begins: &[bool], homes: &[u32], node: usize) -> u32
    requires node { node < length tree.now.nodes }
    requires begins { AreRootMarks (game_of_tree tree.now) begins.now }
    requires homes { AreHomesBefore (game_of_tree tree.now) node homes.now }
    ensures { GoesOnIn (game_of_tree tree.now) result node }
{
    tree.stands_for_game_tree();
    if begins[node] {
        node as u32
    } else {
        homes[tree.parent(node)]
    }
}

// For each node a node in whose cut it goes on.
fn homes(alloc: Global, tree: &Tree, begins: &[bool]) -> Result<Vec<u32>, Memory>
    requires begins { AreRootMarks (game_of_tree tree.now) begins.now }
    ensures { IfOk result
        (λ homes. AreHomesBefore (game_of_tree tree.now) (length tree.now.nodes) homes.items) }
{
    let mut homes = Vec::with_capacity(alloc, tree.nodes().len())?;
    for node in 0..tree.nodes().len() {
        let next = home(tree, begins, &homes, node);
        homes.push(next)?;
    }
    Ok(homes)
}

// Adds a node to the list of the cut at a root.
fn list_in(cuts: &mut Vec<Vec<u32>>, root: u32, node: u32) -> Result<(), Memory>
    requires { root < length cuts.old.items }
    ensures { OnOk result (map (λ v. v.items) cuts.new.items
        ≡ with_node (map (λ v. v.items) cuts.old.items) root node) }
{
    cuts[root as usize].push(node)?;
    Ok(())
}

// Adds a node to the lists of the cuts in which it stands.
fn list_node(
    tree: &Tree,
    begins: &[bool],
    homes: &[u32],
    cuts: &mut Vec<Vec<u32>>,
    node: usize,
) -> Result<(), Memory>
    requires node { node < length tree.now.nodes }
    requires begins { AreRootMarks (game_of_tree tree.now) begins.now }
    requires homes { AreHomesBefore (game_of_tree tree.now) (length tree.now.nodes) homes.now }
    requires cuts { length cuts.old.items ≡ length tree.now.nodes }
    ensures { OnOk result (IsAddedToCuts (game_of_tree tree.now) node
        (map (λ v. v.items) cuts.old.items) (map (λ v. v.items) cuts.new.items)) }
{
    tree.stands_for_game_tree();
    list_in(cuts, homes[node], node as u32)?;
    if node != 0 && begins[node] {
        let above = homes[tree.parent(node)];
        list_in(cuts, above, node as u32)?;
    }
    Ok(())
}

/// For each node the nodes of the cut there, in ascending order, where a subgame begins, and none
/// elsewhere.
pub(crate) fn cut_lists(
    alloc: Global,
    tree: &Tree,
    begins: &[bool],
) -> Result<Vec<Vec<u32>>, Memory>
    requires begins { AreRootMarks (game_of_tree tree.now) begins.now }
    ensures { IfOk result
        (λ cuts. AreCutLists (game_of_tree tree.now) (map (λ v. v.items) cuts.items)) }
{
    let homes = homes(alloc, tree, begins)?;
    let mut cuts = empty_lists(alloc, tree.nodes().len())?;
    for node in 0..tree.nodes().len() {
        list_node(tree, begins, &homes, &mut cuts, node)?;
    }
    Ok(cuts)
}
