// The law of single cuts. The function does nothing: its contract is a law, so that a check proves
// it.
ghost use Rattle.subgames.specs.CutTrees.{CutsAreSingle};

use game_core::sets_are_numbered_by_first_nodes;

/// A tree has one cut at most at a node, where the ends are worth the same: its nodes, its sets and
/// the cut itself are told by the tree, the node and those worths.
pub fn cuts_are_single()
    ensures { CutsAreSingle }
{
    sets_are_numbered_by_first_nodes();
}
