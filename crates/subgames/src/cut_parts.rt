// The nodes, sets and outcomes of a cut.
ghost use Rattle.std.specs.Prelude.{ℕ, ◌≡◌, ◌<◌, ◌≤◌, ◌*◌, ◌^◌, All, IfOk, List, [], Option, replicate, length, map};
ghost use Rattle.std.specs.List.{range_with_len};
ghost use Rattle.std.specs.List.Sorted.{IsStrictlyIncreasing};
ghost use Rattle.game_theory.specs.OwnSets.{places_with};
ghost use Rattle.game_core.specs.Tree.{IsBelow};
ghost use Rattle.game_core.specs.TreeGame.{game_of_tree};
ghost use Rattle.lists.specs.Listed.{IsIndexOf};
ghost use Rattle.subgames.specs.CutParts.{AreIndicesIn, cut_information_set, cut_node, cut_outcome, cut_pays, named_kind, without_name};

use crate::cut_nodes::is_given_end;
use crate::members::member_lists;
use answers::Memory;
use frac128::Frac;
use game_core::{Action, InfoSet, Kind, Name, Node, Outcome, Tree};
use std::alloc::Global;

/// So many empty names.
pub(crate) fn empty_names(alloc: Global, count: usize) -> Result<Vec<Name>, Memory>
    ensures { IfOk result (λ names. names.items ≡ replicate count []) }
{
    let mut names = Vec::with_capacity(alloc, count)?;
    for _ in 0..count {
        names.push(Name::new(Vec::new(alloc)))?;
    }
    Ok(names)
}

// Who chooses where a set of the cut is named, and nobody where none is.
fn named_kind(tree: &Tree, sets: &[u32], name: Option<u32>) -> Kind
    requires sets { All (λ s. s < length tree.now.sets) sets.now }
    requires name { IsBelow (length sets.now) name }
    ensures { result ≡ named_kind (game_of_tree tree.now) sets.now name }
{
    let Some(set) = name else {
        return Kind::End;
    };
    match tree.owner(sets[set as usize] as usize) {
        Some(player) => Kind::Move { player },
        None => Kind::Chance,
    }
}

// The node before this one, which is a node of the tree.
fn node_before(tree: &Tree, node: usize) -> usize
    requires { node < length tree.now.nodes }
    ensures is { result ≡ (game_of_tree tree.now).parent node }
    ensures within { result < length tree.now.nodes }
{
    tree.stands_for_game_tree();
    tree.parent(node)
}

// The index of a node among these, and nothing where it does not stand there.
fn index_among(nodes: &[u32], node: u32) -> Option<u32>
    requires ascending { IsStrictlyIncreasing nodes.now }
    requires few { length nodes.now ≤ 2 ^ 32 }
    ensures { IsIndexOf nodes.now node result }
{
    match nodes.binary_search(&node) {
        Ok(index) => Some(index as u32),
        Err(_) => None,
    }
}

// The node with a number in the cut.
fn cut_node(tree: &Tree, nodes: &[u32], sets: &[u32], names: &[Option<u32>], number: u32) -> Node
    requires number { number < length nodes.now }
    requires nodes { All (λ k. k < length tree.now.nodes) nodes.now }
    requires ascending { IsStrictlyIncreasing nodes.now }
    requires few { length nodes.now ≤ length tree.now.nodes }
    requires sets { All (λ s. s < length tree.now.sets) sets.now }
    requires of_each { length names.now ≡ length nodes.now }
    requires names { All (IsBelow (length sets.now)) names.now }
    ensures { (indices : List (Option ℕ))
        → AreIndicesIn nodes.now (length tree.now.nodes) indices
        → result ≡ cut_node (game_of_tree tree.now) nodes.now indices sets.now names.now number }
{
    tree.stands_for_game_tree();
    let node = nodes[number as usize] as usize;
    let set = names[number as usize];
    let kind = named_kind(tree, sets, set);
    let outcome = Some(number);
    if number == 0 {
        return Node {
            kind,
            parent: None,
            branch: 0,
            set,
            outcome,
        };
    }
    let parent = index_among(nodes, node_before(tree, node) as u32);
    Node {
        kind,
        parent,
        branch: tree.branch(node),
        set,
        outcome,
    }
}

/// The nodes of the cut in order.
pub(crate) fn made_nodes(
    alloc: Global,
    tree: &Tree,
    nodes: &[u32],
    sets: &[u32],
    names: &[Option<u32>],
) -> Result<Vec<Node>, Memory>
    requires nodes { All (λ k. k < length tree.now.nodes) nodes.now }
    requires ascending { IsStrictlyIncreasing nodes.now }
    requires sets { All (λ s. s < length tree.now.sets) sets.now }
    requires of_each { length names.now ≡ length nodes.now }
    requires names { All (IsBelow (length sets.now)) names.now }
    requires few { length nodes.now ≤ length tree.now.nodes }
    ensures { IfOk result (λ made. (indices : List (Option ℕ))
        → AreIndicesIn nodes.now (length tree.now.nodes) indices
        → made.items ≡ map (cut_node (game_of_tree tree.now) nodes.now indices sets.now names.now)
        (range_with_len 0 (length nodes.now))) }
{
    tree.stands_for_game_tree();
    let mut made = Vec::with_capacity(alloc, nodes.len())?;
    for number in 0..nodes.len() {
        let node = cut_node(tree, nodes, sets, names, number as u32);
        made.push(node)?;
    }
    Ok(made)
}

// These actions without their names.
fn made_actions(alloc: Global, actions: &[Action]) -> Result<Vec<Action>, Memory>
    ensures { IfOk result (λ made. made.items ≡ map without_name actions.now) }
{
    let mut made = Vec::with_capacity(alloc, actions.len())?;
    for number in 0..actions.len() {
        let prob = actions[number].prob;
        made.push(Action {
            name: Name::new(Vec::new(alloc)),
            prob,
        })?;
    }
    Ok(made)
}

// The set with a number in the cut, whose members these are.
fn made_set(
    alloc: Global,
    tree: &Tree,
    sets: &[u32],
    members: Vec<u32>,
    number: u32,
) -> Result<InfoSet, Memory>
    requires number { number < length sets.now }
    requires sets { All (λ s. s < length tree.now.sets) sets.now }
    ensures { IfOk result
        (λ made. (names : List (Option ℕ))
        → members.items ≡ places_with (λ name. name) names number
        → made ≡ cut_information_set tree.now sets.now names number) }
{
    let set = sets[number as usize] as usize;
    let actions = made_actions(alloc, tree.sets()[set].actions())?;
    let label = tree.sets()[set].label();
    let name = Name::new(Vec::new(alloc));
    Ok(InfoSet::new(tree.owner(set), label, name, actions, members))
}

/// The sets of the cut in order.
pub(crate) fn made_sets(
    alloc: Global,
    tree: &Tree,
    sets: &[u32],
    names: &[Option<u32>],
) -> Result<Vec<InfoSet>, Memory>
    requires sets { All (λ s. s < length tree.now.sets) sets.now }
    requires names { All (IsBelow (length sets.now)) names.now }
    requires few { length names.now < 2 ^ 32 }
    requires no_more { length sets.now ≤ length names.now }
    ensures { IfOk result (λ made. made.items ≡
        map (cut_information_set tree.now sets.now names.now)
        (range_with_len 0 (length sets.now))) }
{
    let lists = member_lists(alloc, sets.len(), names)?;
    let mut made = Vec::with_capacity(alloc, sets.len())?;
    for members in lists {
        let set = made_set(alloc, tree, sets, members, made.len() as u32)?;
        made.push(set)?;
    }
    Ok(made)
}

// What a node pays a player in the cut.
fn cut_pays(
    tree: &Tree,
    begins: &[bool],
    root: u32,
    worth: &[Frac],
    node: usize,
    player: usize,
) -> Frac
    requires node { node < length tree.now.nodes }
    requires player { player < length tree.now.players }
    requires begins { length begins.now ≡ length tree.now.nodes }
    requires worth { length worth.now ≡ length tree.now.nodes * length tree.now.players }
    ensures { result ≡ cut_pays (game_of_tree tree.now) begins.now root worth.now node player }
{
    if is_given_end(begins, root, node) {
        worth[node * tree.players().len() + player]
    } else {
        tree.pays(node, player)
    }
}

// The outcome of a node in the cut.
fn cut_outcome(
    alloc: Global,
    tree: &Tree,
    begins: &[bool],
    root: u32,
    worth: &[Frac],
    node: usize,
) -> Result<Outcome, Memory>
    requires node { node < length tree.now.nodes }
    requires begins { length begins.now ≡ length tree.now.nodes }
    requires worth { length worth.now ≡ length tree.now.nodes * length tree.now.players }
    ensures { IfOk result
        (λ made. made ≡ cut_outcome (game_of_tree tree.now) begins.now root worth.now node) }
{
    let players = tree.players().len();
    let mut payoffs = Vec::with_capacity(alloc, players)?;
    for player in 0..players {
        let payoff = cut_pays(tree, begins, root, worth, node, player);
        payoffs.push(payoff)?;
    }
    Ok(Outcome::new(0, Name::new(Vec::new(alloc)), payoffs))
}

/// The outcomes of these nodes in order.
pub(crate) fn made_outcomes(
    alloc: Global,
    tree: &Tree,
    begins: &[bool],
    root: u32,
    worth: &[Frac],
    nodes: &[u32],
) -> Result<Vec<Outcome>, Memory>
    requires nodes { All (λ k. k < length tree.now.nodes) nodes.now }
    requires begins { length begins.now ≡ length tree.now.nodes }
    requires worth { length worth.now ≡ length tree.now.nodes * length tree.now.players }
    ensures { IfOk result (λ made. made.items ≡
        map (cut_outcome (game_of_tree tree.now) begins.now root worth.now) nodes.now) }
{
    let mut made = Vec::with_capacity(alloc, nodes.len())?;
    for node in nodes {
        made.push(cut_outcome(alloc, tree, begins, root, worth, *node as usize)?)?;
    }
    Ok(made)
}
