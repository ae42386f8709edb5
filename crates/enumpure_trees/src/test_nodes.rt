// The nodes at which choices are tested.
ghost use Rattle.std.specs.Prelude.{IfOk};
ghost use Rattle.game_core.specs.TreeGame.{game_of_tree};
ghost use Rattle.enumpure_trees.specs.TestNodes.{AreTestNodes};

use answers::Memory;
use game_core::Tree;
use std::alloc::Global;
use subgames::subgame_roots;

/// The nodes at which choices are tested, in ascending order: those at which subgames begin where
/// `perfect` is set, and else the tree's root alone.
pub(crate) fn test_nodes(alloc: Global, perfect: bool, tree: &Tree) -> Result<Vec<u32>, Memory>
    ensures { IfOk result (λ nodes. AreTestNodes perfect (game_of_tree tree.now) nodes.items) }
{
    if perfect {
        subgame_roots(alloc, tree)
    } else {
        Ok(vec![in alloc; 0; 1]?)
    }
}
