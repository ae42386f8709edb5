// The sets of the cut at a node.
ghost use Rattle.std.specs.Prelude.{◌≡◌, ◌<◌, ◌≤◌, ◌^◌, All, IfOk, length, map};
ghost use Rattle.game_core.specs.TreeGame.{game_of_tree};
ghost use Rattle.subgames.specs.CutParts.{AreSetNames, HasNumber, cut_set};

use crate::cut_nodes::cut_set;
use answers::Memory;
use game_core::Tree;
use indexmap::IndexSet;
use std::alloc::Global;

// The number of a set among these, after which it is added where it does not stand there.
fn set_number(sets: &mut IndexSet<u32>, set: u32) -> Result<u32, Memory>
    requires few { length sets.old.keys < 2 ^ 32 }
    ensures { IfOk result (λ r. HasNumber set sets.old.keys sets.new.keys r) }
{
    let (number, _) = sets.insert_full(set)?;
    Ok(number as u32)
}

/// The sets of the cut at a root in the order in which these nodes first name them, and for each of
/// these nodes the number of its set there.
pub(crate) fn cut_sets(
    alloc: Global,
    tree: &Tree,
    begins: &[bool],
    root: u32,
    nodes: &[u32],
) -> Result<(Vec<u32>, Vec<Option<u32>>), Memory>
    requires begins { length begins.now ≡ length tree.now.nodes }
    requires within { All (λ k. k < length tree.now.nodes) nodes.now }
    requires few { length nodes.now ≤ length tree.now.nodes }
    ensures { IfOk result (λ it. AreSetNames
        (map (cut_set (game_of_tree tree.now) begins.now root) nodes.now)
        it.1.items it.0.items) }
{
    tree.stands_for_game_tree();
    let mut sets = IndexSet::new(alloc);
    let mut names = Vec::with_capacity(alloc, nodes.len())?;
    for node in nodes {
        let name = match cut_set(tree, begins, root, *node as usize) {
            Some(set) => Some(set_number(&mut sets, set)?),
            None => None,
        };
        names.push(name)?;
    }
    let whole = sets.as_slice().to_vec(alloc)?;
    Ok((whole, names))
}
