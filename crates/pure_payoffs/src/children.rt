// The children of nodes.
ghost use Rattle.std.specs.Prelude.{◌≡◌, ◌<◌, length, map, IfOk};
ghost use Rattle.game_core.specs.TreeGame.{game_of_tree};
ghost use Rattle.pure_payoffs.specs.ChildLists.{HaveAsMany, actions_at};
ghost use Rattle.game_theory.specs.Children.{AreChildren};

use answers::Memory;
use game_core::Tree;
use std::alloc::Global;

// How many actions a node's set has: none at an end.
fn actions_at(tree: &Tree, node: usize) -> usize
    requires { node < length tree.now.nodes }
    ensures { let t = game_of_tree tree.now in result ≡ actions_at t (t.set node) }
{
    tree.stands_for_game_tree();
    match tree.set_at(node) {
        Some(set) => tree.action_count(set as usize),
        None => 0,
    }
}

// For each node a list of zeros, one for each action of its set.
fn rooms(alloc: Global, tree: &Tree) -> Result<Vec<Vec<u32>>, Memory>
    ensures { IfOk result
        (λ lists. HaveAsMany (game_of_tree tree.now) (map (λ v. v.items) lists.items)) }
{
    let mut lists = Vec::new(alloc);
    for node in 0..tree.nodes().len() {
        lists.push(vec![in alloc; 0; actions_at(tree, node)]?)?;
    }
    Ok(lists)
}

/// For each node its children, one for each action of its set in order, and nothing more.
///
/// # Errors
///
/// Memory ran out.
pub fn children_of_all(alloc: Global, tree: &Tree) -> Result<Vec<Vec<u32>>, Memory>
    ensures children { IfOk result
        (λ lists. AreChildren (game_of_tree tree.now) (map (λ v. v.items) lists.items)) }
    ensures as_many { IfOk result
        (λ lists. HaveAsMany (game_of_tree tree.now) (map (λ v. v.items) lists.items)) }
{
    tree.stands_for_game_tree();
    let mut lists = rooms(alloc, tree)?;
    for node in 1..tree.nodes().len() {
        lists[tree.parent(node)][tree.branch(node) as usize] = node as u32;
    }
    Ok(lists)
}
