// The players' decisions.
ghost use Rattle.std.specs.Prelude.{◌≡◌, ◌<◌, ◌≤◌, ◌^◌, ℕ, All, length, map, IfOk, IfSome, slice_get, Some, []};
ghost use Rattle.game_core.specs.LastMoves.{IsLastAbove};
ghost use Rattle.game_core.specs.TreeGame.{game_of_tree};
ghost use Rattle.reduced_strategies.specs.Places.{ArePlaces};
ghost use Rattle.strategy_lists.specs.Decisions.{AreDecisionsOfAll};
ghost use Rattle.strategy_lists.specs.Made.{HasTaken, IsMadeAt, mover};
ghost use Rattle.game_theory.specs.OwnSets.{Chooses, own_sets};

use crate::decision::{Decision, Edge};
use answers::Memory;
use game_core::{LastMove, Tree, last_moves, trees_are_game_trees};
use std::alloc::Global;

// The place of a node's set among its owner's own sets; any number where no player moves.
fn place_at(tree: &Tree, places: &[u32], number: usize) -> u32
    requires places { ArePlaces (game_of_tree tree.now) places.now }
    requires within { number < length tree.now.nodes }
    ensures { (i s : ℕ) → Chooses (game_of_tree tree.now) number i s
        → slice_get (own_sets (game_of_tree tree.now) i) result ≡ Some s }
{
    match tree.nodes()[number].set {
        Some(set) => places[set as usize],
        None => 0,
    }
}

// The decision at a node where this player moves, whose last move above the node this is. `numbers`
// has the numbers of the decisions at the nodes before it.
fn decision_at(
    tree: &Tree,
    places: &[u32],
    numbers: &[u32],
    number: usize,
    player: u32,
    last: Option<LastMove>,
) -> Decision
    requires places { ArePlaces (game_of_tree tree.now) places.now }
    requires numbers { number ≤ length numbers.now }
    requires within { number < length tree.now.nodes }
    requires moves { mover (game_of_tree tree.now) number ≡ Some player }
    requires last { IsLastAbove (game_of_tree tree.now) player number last }
    ensures { IsMadeAt (game_of_tree tree.now) player numbers.now number result }
{
    let before = match last {
        Some((node, _, action)) => Some(Edge {
            decision: numbers[node],
            place: place_at(tree, places, node),
            action,
        }),
        None => None,
    };
    Decision {
        place: place_at(tree, places, number),
        before,
    }
}

// An empty list for each player.
fn no_lists(alloc: Global, players: usize) -> Result<Vec<Vec<Decision>>, Memory>
    ensures { IfOk result (λ lists. (length lists.items ≡ players)
        × All (λ list. list.items ≡ []) lists.items) }
{
    let mut lists = Vec::new(alloc);
    for _ in 0..players {
        lists.push(Vec::new(alloc))?;
    }
    Ok(lists)
}

// The number of a decision in its player's list: that of the decision made last for its set where
// this is the same one, and else a new one, which then is the set's.
fn take(
    list: &mut Vec<Decision>,
    latest: &mut Option<u32>,
    decision: Decision,
) -> Result<u32, Memory>
    requires latest { IfSome latest.old (λ number. number < length list.old.items) }
    requires few { length list.old.items < 2 ^ 32 }
    ensures list { IfOk result (λ number. HasTaken list.old.items list.new.items decision number) }
    ensures latest { IfOk result (λ number. latest.new ≡ Some number) }
    ensures shared { IfSome latest.old (λ number. slice_get list.old.items number ≡ Some decision
        → list.new.items ≡ list.old.items) }
{
    if let Some(number) = *latest {
        if list[number as usize] == decision {
            return Ok(number);
        }
    }
    let number = list.len() as u32;
    list.push(decision)?;
    *latest = Some(number);
    Ok(number)
}

/// The decisions of each player, each after those before it. Nodes of one set with the same own
/// history can share one. `places` has each set's place among its owner's own sets.
pub(crate) fn decisions_of_all(
    alloc: Global,
    tree: &Tree,
    places: &[u32],
) -> Result<Vec<Vec<Decision>>, Memory>
    requires places { ArePlaces (game_of_tree tree.now) places.now }
    ensures { IfOk result
        (λ lists. AreDecisionsOfAll (game_of_tree tree.now) (map (λ v. v.items) lists.items)) }
{
    trees_are_game_trees();
    let mut lists = no_lists(alloc, tree.players().len())?;
    let moves = last_moves(alloc, tree)?;
    let mut latest = vec![in alloc; None; tree.sets().len()]?;
    let mut numbers = Vec::new(alloc);
    for node in 0..tree.nodes().len() {
        let mut number = 0;
        if let Some((player, set)) = tree.choice_at(node) {
            let last = moves[node];
            let decision = decision_at(tree, places, numbers.as_slice(), node, player, last);
            let list = &mut lists[player as usize];
            number = take(list, &mut latest[set as usize], decision)?;
        }
        numbers.push(number)?;
    }
    Ok(lists)
}
