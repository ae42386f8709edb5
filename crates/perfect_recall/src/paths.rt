// The players' last own edges on the paths of a tree.
ghost use Rattle.std.specs.Prelude.{◌≡◌, length, option_map, IfOk};
ghost use Rattle.game_core.specs.TreeGame.{game_of_tree};
ghost use Rattle.perfect_recall.specs.LastEdges.{AreLastEdges};

use answers::Memory;
use game_core::{LastMove, Tree, last_moves};
use std::alloc::Global;

// The set and the action of a move, where there is one.
fn edge_of(last: Option<LastMove>) -> Option<(u32, u32)>
    ensures { result ≡ option_map (λ move. (move.1, move.2)) last }
{
    let (_, set, action) = last?;
    Some((set, action))
}

// For each node the last own set and action before it of the player who chooses there; nothing
// where there is none, and where nobody does.
pub(crate) fn last_edges(alloc: Global, tree: &Tree) -> Result<Vec<Option<(u32, u32)>>, Memory>
    ensures length { IfOk result (λ edges. length edges.items ≡ length tree.now.nodes) }
    ensures edges { IfOk result (λ edges. AreLastEdges (game_of_tree tree.now) edges.items) }
{
    let moves = last_moves(alloc, tree)?;
    let list = moves.as_slice();
    let mut edges = Vec::with_capacity(alloc, list.len())?;
    for last in list {
        edges.push(edge_of(*last))?;
    }
    Ok(edges)
}
