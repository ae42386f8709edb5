// Values of nodes in whose subtrees no player moves.
ghost use Rattle.std.specs.Prelude.{◌≡◌, ◌<◌, ℕ, length, All, IfOk, IfSome, IsTrue, None, Ok, slice_index_or, false, true};
ghost use Rattle.game_theory.specs.Trees.{Tree as game_tree, IsTree};
ghost use Rattle.game_core.specs.TreeGame.{game_of_tree};
ghost use Rattle.pure_payoffs.specs.Plays.{GiveAt};
ghost use Rattle.pure_payoffs.specs.Settled.{AreWithoutPlayers, AreSettledNodes, KeepValues, Settles};

use answers::Memory;
use frac128::Frac;
use game_core::{Kind, MOST_PAYOFFS, Tree};
use std::alloc::Global;

/// What nodes in whose subtrees no player moves are worth to the players, as far as it was asked
/// for. Of the nodes on a path the topmost is kept, and no more in all than a table may have
/// payoffs.
#[derive(Debug, Drop)]
pub(crate) struct Settled {
    // For each node a place for each player, or no place at all.
    places: Vec<Vec<Option<Frac>>>,
}

// For each node whether no player moves there.
fn nodes_without_players(alloc: Global, tree: &Tree) -> Result<Vec<bool>, Memory>
    ensures { IfOk result
        (λ idle. AreWithoutPlayers (game_of_tree tree.now) idle.items) }
{
    let mut idle = Vec::new(alloc);
    for node in tree.nodes() {
        idle.push(!matches!(node.kind, Kind::Move { .. }))?;
    }
    Ok(idle)
}

// For each node whether no player moves in its subtree.
fn settled_nodes(alloc: Global, tree: &Tree) -> Result<Vec<bool>, Memory>
    ensures { IfOk result (λ idle. AreSettledNodes (game_of_tree tree.now) idle.items) }
{
    tree.stands_for_game_tree();
    let mut idle = nodes_without_players(alloc, tree)?;
    for node in (1..tree.nodes().len()).rev() {
        if !idle[node] {
            idle[tree.parent(node)] = false;
        }
    }
    Ok(idle)
}

// Whether no player moves in the subtree of a node of chance, and one moves in that of its parent.
fn is_topmost(tree: &Tree, idle: &[bool], node: usize) -> bool
    requires tree { node < length tree.now.nodes }
    requires idle { node < length idle.now }
    ensures { IsTrue result → slice_index_or idle.now node false ≡ true }
{
    let parent = tree.parent(node);
    idle[node] && tree.set_at(node).is_some() && matches!(idle.get(parent), Some(false))
}

// A place for each of so many players, all free.
fn free_places(alloc: Global, players: usize) -> Result<Vec<Option<Frac>>, Memory>
    ensures { IfOk result (λ places. All (λ place. place ≡ None) places.items) }
{
    let mut places = Vec::with_capacity(alloc, players)?;
    for _ in 0..players {
        places.push(None)?;
    }
    Ok(places)
}

impl Settled {
    /// No value so far.
    pub(crate) fn new(alloc: Global, tree: &Tree) -> Result<Settled, Memory>
        ensures { IfOk result (KeepValues (game_of_tree tree.now)) }
    {
        let idle = settled_nodes(alloc, tree)?;
        let players = tree.players().len();
        let mut room = MOST_PAYOFFS;
        let mut places = Vec::new(alloc);
        for node in 0..tree.nodes().len() {
            let mut of_players = Vec::new(alloc);
            if players <= room && is_topmost(tree, &idle, node) {
                room -= players;
                of_players = free_places(alloc, players)?;
            }
            places.push(of_players)?;
        }
        Ok(Settled { places })
    }

    /// What a node is worth to a player, where that is kept.
    pub(crate) fn value(&self, node: u32, player: u32) -> Option<Frac>
        requires node { node < length self.now.places.items }
        ensures { (t : game_tree) → KeepValues t self.now → IfSome result (Settles t player node) }
    {
        match self.places[node as usize].get(player as usize) {
            Some(place) => *place,
            None => None,
        }
    }

    /// Keeps what a node is worth to a player, where it has a place.
    pub(crate) fn keep(&mut self, node: u32, player: u32, worth: Frac)
        requires node { node < length self.old.places.items }
        ensures { (t : game_tree) (choice : ℕ → ℕ) → IsTree t → KeepValues t self.old
            → GiveAt t choice player node (Ok worth) → KeepValues t self.new }
    {
        let places = &mut self.places[node as usize];
        if (player as usize) < places.len() {
            places[player as usize] = Some(worth);
        }
    }
}
