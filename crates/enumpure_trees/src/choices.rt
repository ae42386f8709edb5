// The players' sets, and how many actions they have.
ghost use Rattle.std.specs.Prelude.{◌≡◌, IfOk};
ghost use Rattle.game_core.specs.TreeGame.{game_of_tree};
ghost use Rattle.game_theory.specs.OwnSets.{action_counts, player_sets};

use answers::Memory;
use game_core::Tree;
use std::alloc::Global;

/// The players' sets: player by player, and in each set by set.
pub(crate) fn player_sets(alloc: Global, tree: &Tree) -> Result<Vec<u32>, Memory>
    ensures { IfOk result (λ sets. sets.items ≡ player_sets (game_of_tree tree.now)) }
{
    tree.stands_for_game_tree();
    let mut sets = Vec::new(alloc);
    for player in 0..tree.players().len() {
        sets.extend_from_slice(tree.sets_of(player as u32))?;
    }
    Ok(sets)
}

/// How many actions each of these sets has.
pub(crate) fn action_counts(alloc: Global, tree: &Tree, sets: &[u32]) -> Result<Vec<usize>, Memory>
    requires { sets.now ≡ player_sets (game_of_tree tree.now) }
    ensures { IfOk result (λ counts. counts.items ≡ action_counts (game_of_tree tree.now)) }
{
    let mut counts = Vec::with_capacity(alloc, sets.len())?;
    for set in sets {
        counts.push(tree.action_count(*set as usize))?;
    }
    Ok(counts)
}
