// What the paths of a tree lead to, node by node, each after its parent.
ghost use Rattle.std.specs.Prelude.{◌≡◌, ◌<◌, length, map, IfOk};
ghost use Rattle.std.specs.List.{range_with_len};
ghost use Rattle.answers.specs.Answers.{Gives, map_ok};
ghost use Rattle.game_core.specs.TreeGame.{game_of_tree};
ghost use Rattle.sequence_forms.specs.Forms.{chance_of_path};
ghost use Rattle.sequence_forms.specs.Sequences.{last_sequence};
ghost use Rattle.sequence_data.specs.Steps.{fit_at};
ghost use Rattle.sequence_data.specs.declared.stop.SeqStop.TheVariants as stops;
ghost use Rattle.sequence_form.specs.Paths.{chance_steps, child_steps, leaf_at, paths_in, tree_leaves};
ghost use Rattle.sequence_form.specs.Sequences.{AreFirsts};

use answers::Memory;
use frac128::Frac;
use game_core::Tree;
use sequence_data::{Leaf, SeqStop, product, sum};
use sequence_forms::{last_sequences_recur, paths_add_up};
use std::alloc::Global;

// The last sequence of a player at a node, from that at its parent.
fn last_sequence(tree: &Tree, firsts: &[u32], player: u32, above: u32, node: usize) -> u32
    requires later { 0 < node }
    requires node { node < length tree.now.nodes }
    requires firsts { AreFirsts (game_of_tree tree.now) player firsts.now }
    requires above { above
        ≡ last_sequence (game_of_tree tree.now) player ((game_of_tree tree.now).parent node) }
    ensures { result ≡ last_sequence (game_of_tree tree.now) player node }
{
    tree.stands_for_game_tree();
    last_sequences_recur();
    let Some(set) = tree.set_at(tree.parent(node)) else {
        return above;
    };
    match tree.owner(set as usize) {
        Some(own) if own == player => firsts[set as usize] + tree.branch(node),
        _ => above,
    }
}

// The chance of a node, from that of its parent.
fn chance(tree: &Tree, above: Frac, node: usize) -> Result<Frac, SeqStop>
    requires later { 0 < node }
    requires node { node < length tree.now.nodes }
    requires above { above
        ≡ chance_of_path (game_of_tree tree.now) ((game_of_tree tree.now).parent node) }
    ensures value { IfOk result (λ v. v ≡ chance_of_path (game_of_tree tree.now) node) }
    ensures steps { let t = game_of_tree tree.now in fit_at node
        (chance_steps t node (t.set (t.parent node))) (map_ok result (λ _. tt)) }
{
    tree.stands_for_game_tree();
    paths_add_up();
    let Some(set) = tree.set_at(tree.parent(node)) else {
        return Ok(above);
    };
    match tree.owner(set as usize) {
        Some(_) => Ok(above),
        None => {
            let probability = tree.probability(set as usize, tree.branch(node) as usize);
            product(node as u32, above, probability)
        }
    }
}

// The path to the root.
fn root_path(tree: &Tree) -> Leaf
    requires { length tree.now.players ≡ 2 }
    ensures { result ≡ leaf_at (game_of_tree tree.now) 0 }
{
    tree.stands_for_game_tree();
    Leaf {
        place: 0,
        row: 0,
        column: 0,
        chance: Frac::one(),
        one: tree.pays(0, 0),
        two: tree.pays(0, 1),
    }
}

// The path to a node, from that to its parent.
fn next_path(
    tree: &Tree,
    firsts_one: &[u32],
    firsts_two: &[u32],
    above: Leaf,
    node: usize,
) -> Result<Leaf, SeqStop>
    requires two { length tree.now.players ≡ 2 }
    requires later { 0 < node }
    requires node { node < length tree.now.nodes }
    requires firsts_one { AreFirsts (game_of_tree tree.now) 0 firsts_one.now }
    requires firsts_two { AreFirsts (game_of_tree tree.now) 1 firsts_two.now }
    requires above { above ≡ leaf_at (game_of_tree tree.now) ((game_of_tree tree.now).parent node) }
    ensures value { IfOk result (λ path. path ≡ leaf_at (game_of_tree tree.now) node) }
    ensures steps { fit_at node (child_steps (game_of_tree tree.now) node)
        (map_ok result (λ _. tt)) }
{
    tree.stands_for_game_tree();
    paths_add_up();
    let chance = chance(tree, above.chance, node)?;
    let one = sum(node as u32, above.one, tree.pays(node, 0))?;
    let two = sum(node as u32, above.two, tree.pays(node, 1))?;
    Ok(Leaf {
        place: node as u32,
        row: last_sequence(tree, firsts_one, 0, above.row, node),
        column: last_sequence(tree, firsts_two, 1, above.column, node),
        chance,
        one,
        two,
    })
}

// The paths to all nodes.
pub(crate) fn paths(
    alloc: Global,
    tree: &Tree,
    firsts_one: &[u32],
    firsts_two: &[u32],
) -> Result<Vec<Leaf>, SeqStop>
    requires two { length tree.now.players ≡ 2 }
    requires firsts_one { AreFirsts (game_of_tree tree.now) 0 firsts_one.now }
    requires firsts_two { AreFirsts (game_of_tree tree.now) 1 firsts_two.now }
    ensures paths { IfOk result (λ paths. paths.items
        ≡ map (leaf_at (game_of_tree tree.now)) (range_with_len 0 (length tree.now.nodes))) }
    ensures steps { Gives stops.Memory (paths_in (game_of_tree tree.now))
        (map_ok result (λ _. tt)) }
{
    tree.stands_for_game_tree();
    let nodes = tree.nodes().len();
    let mut paths = Vec::with_capacity(alloc, nodes)?;
    paths.push(root_path(tree))?;
    for node in 1..nodes {
        let above = paths[tree.parent(node)];
        paths.push(next_path(tree, firsts_one, firsts_two, above, node)?)?;
    }
    Ok(paths)
}

// The leaves among the nodes.
pub(crate) fn leaves(alloc: Global, tree: &Tree, paths: &[Leaf]) -> Result<Vec<Leaf>, Memory>
    requires { paths.now
        ≡ map (leaf_at (game_of_tree tree.now)) (range_with_len 0 (length tree.now.nodes)) }
    ensures { IfOk result (λ leaves. leaves.items ≡ tree_leaves (game_of_tree tree.now)) }
{
    let nodes = tree.nodes().len();
    let mut leaves = Vec::new(alloc);
    for node in 0..nodes {
        if tree.set_at(node).is_none() {
            leaves.push(paths[node])?;
        }
    }
    Ok(leaves)
}
