// The last moves of players above nodes.
ghost use Rattle.std.specs.Prelude.{◌≡◌, ◌<◌, IfOk, length};
ghost use Rattle.game_theory.specs.Trees.{IsWithin};
ghost use Rattle.game_core.specs.LastMoves.{AreLastMoves, AreMovesBefore};
ghost use Rattle.game_core.specs.TreeGame.{game_of_tree};

use crate::tree::Tree;
use answers::Memory;
use std::alloc::Global;

/// A move on the way to a node: the node at which it is made, its set, and the action that leads
/// on.
pub type LastMove = (usize, u32, u32);

// Goes up from a node to one above it, where `last` has each player's last move above the first.
// `before` has for each node at which a player moves the player's last move above it.
fn climb(
    tree: &Tree,
    before: &[Option<LastMove>],
    last: &mut [Option<LastMove>],
    from: usize,
    to: usize,
)
    requires from { from < length tree.now.nodes }
    requires to { IsWithin (game_of_tree tree.now) to from }
    requires few { from < length before.now }
    requires before { AreMovesBefore (game_of_tree tree.now) before.now }
    requires last { AreLastMoves (game_of_tree tree.now) from last.old }
    ensures { AreLastMoves (game_of_tree tree.now) to last.new }
{
    tree.stands_for_game_tree();
    let mut here = from;
    while here != to {
        here = tree.parent(here);
        if let Some((player, _)) = tree.choice_at(here) {
            last[player as usize] = before[here];
        }
    }
}

// Goes down to a node, where `last` has each player's last move above the node's parent.
fn descend(tree: &Tree, last: &mut [Option<LastMove>], node: usize)
    requires later { 0 < node }
    requires within { node < length tree.now.nodes }
    requires last { let t = game_of_tree tree.now in AreLastMoves t (t.parent node) last.old }
    ensures { AreLastMoves (game_of_tree tree.now) node last.new }
{
    tree.stands_for_game_tree();
    let above = tree.parent(node);
    if let Some((player, set)) = tree.choice_at(above) {
        last[player as usize] = Some((above, set, tree.branch(node)));
    }
}

/// For each node at which a player moves the player's last move above it. The walk goes over each
/// edge twice at most.
///
/// # Errors
///
/// Memory ran out.
pub fn last_moves(alloc: Global, tree: &Tree) -> Result<Vec<Option<LastMove>>, Memory>
    ensures so_many { IfOk result (λ moves. length moves.items ≡ length tree.now.nodes) }
    ensures moves { IfOk result (λ moves. AreMovesBefore (game_of_tree tree.now) moves.items) }
{
    tree.stands_for_game_tree();
    let mut room = vec![in alloc; None; tree.players().len()]?;
    let last = room.as_mut_slice();
    let mut moves = Vec::new(alloc);
    for node in 0..tree.nodes().len() {
        if node > 0 {
            let above = tree.parent(node);
            climb(tree, moves.as_slice(), last, node - 1, above);
            descend(tree, last, node);
        }
        let move_before = match tree.choice_at(node) {
            Some((player, _)) => last[player as usize],
            None => None,
        };
        moves.push(move_before)?;
    }
    Ok(moves)
}
