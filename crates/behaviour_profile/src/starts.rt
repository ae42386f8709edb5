// Where the entries of sets begin.
ghost use Rattle.std.specs.Prelude.{◌≡◌, ◌+◌, ◌<◌, length, map, sum, IfOk};
ghost use Rattle.behaviour_profile.specs.EntryStarts.{AreStarts, AreStartsOf, sets_below};
ghost use Rattle.game_core.specs.TreeGame.{game_of_tree};

use answers::Memory;
use game_core::Tree;
use std::alloc::Global;

// Writes the places of the first entries of a player's sets, where those of the players before are
// written and the first of all is this, and tells the next.
fn write_starts(tree: &Tree, player: u32, starts: &mut [usize], first: usize) -> usize
    requires player { player < length tree.now.players }
    requires first { let t = game_of_tree tree.now in
        first ≡ sum (map t.actions (sets_below t player)) }
    requires starts { let t = game_of_tree tree.now in
        AreStartsOf t (sets_below t player) starts.old }
    ensures next { let t = game_of_tree tree.now in
        result ≡ sum (map t.actions (sets_below t (player + 1))) }
    ensures starts { let t = game_of_tree tree.now in
        AreStartsOf t (sets_below t (player + 1)) starts.new }
{
    tree.stands_for_game_tree();
    let mut next = first;
    for set in tree.sets_of(player) {
        starts[*set as usize] = next;
        next += tree.action_count(*set as usize);
    }
    next
}

/// For each player's set the place of its first entry, and 0 at a set of chance.
///
/// # Errors
///
/// Memory ran out.
pub fn starts_of(alloc: Global, tree: &Tree) -> Result<Vec<usize>, Memory>
    ensures { IfOk result (λ starts. AreStarts (game_of_tree tree.now) starts.items) }
{
    tree.stands_for_game_tree();
    let mut starts = vec![in alloc; 0; tree.sets().len()]?;
    let mut next = 0;
    for player in 0..tree.players().len() {
        next = write_starts(tree, player as u32, starts.as_mut_slice(), next);
    }
    Ok(starts)
}
