// The sequences of a player of a tree, and the player's side.
ghost use Rattle.std.specs.Prelude.{◌≡◌, ◌<◌, Some, length, IfOk};
ghost use Rattle.game_core.specs.TreeGame.{game_of_tree};
ghost use Rattle.perfect_recall.specs.Found.{IsRecallOf};
ghost use Rattle.sequence_forms.specs.Sequences.{sequence_before};
ghost use Rattle.sequence_form.specs.Sequences.{AreFirsts, own_set_row, sequence_count_of, tree_side};

use answers::Memory;
use game_core::Tree;
use perfect_recall::Recall;
use sequence_data::{SetRow, Side};
use std::alloc::Global;

// How many sequences a set gives a player: one for each action where the player owns it, and else
// none.
pub(crate) fn sequence_count_of(tree: &Tree, set: usize, player: u32) -> u32
    requires { set < length tree.now.sets }
    ensures value { result ≡ sequence_count_of (game_of_tree tree.now) player set }
    ensures few { result < 65536 }
{
    tree.stands_for_game_tree();
    if tree.is_own(set, player) {
        tree.action_count(set) as u32
    } else {
        0
    }
}

// For each set, and after the last one, the sequence that comes next after those of the player's
// sets before it.
pub(crate) fn first_sequences(alloc: Global, tree: &Tree, player: u32) -> Result<Vec<u32>, Memory>
    ensures { IfOk result (λ firsts. AreFirsts (game_of_tree tree.now) player firsts.items) }
{
    tree.stands_for_game_tree();
    let sets = tree.sets().len();
    let mut firsts = Vec::with_capacity(alloc, sets + 1)?;
    let mut next = 1;
    firsts.push(next)?;
    for set in 0..sets {
        next += sequence_count_of(tree, set, player);
        firsts.push(next)?;
    }
    Ok(firsts)
}

// The sequence before a player's own set.
fn sequence_before(tree: &Tree, recall: &Recall, firsts: &[u32], player: u32, set: usize) -> u32
    requires recall { IsRecallOf (game_of_tree tree.now) recall.now }
    requires firsts { AreFirsts (game_of_tree tree.now) player firsts.now }
    requires set { set < length tree.now.sets }
    requires own { (game_of_tree tree.now).owner set ≡ Some player }
    ensures { result ≡ sequence_before (game_of_tree tree.now) player set }
{
    tree.stands_for_game_tree();
    match recall.before()[set] {
        Some((own, action)) => firsts[own as usize] + action,
        None => 0,
    }
}

// A player's own set, with the sequence before it and its own.
fn own_set_row(tree: &Tree, recall: &Recall, firsts: &[u32], player: u32, set: usize) -> SetRow
    requires recall { IsRecallOf (game_of_tree tree.now) recall.now }
    requires firsts { AreFirsts (game_of_tree tree.now) player firsts.now }
    requires set { set < length tree.now.sets }
    requires own { (game_of_tree tree.now).owner set ≡ Some player }
    ensures { result ≡ own_set_row (game_of_tree tree.now) player set }
{
    tree.stands_for_game_tree();
    SetRow {
        before: sequence_before(tree, recall, firsts, player, set),
        first: firsts[set],
        count: tree.action_count(set) as u32,
    }
}

// A player's side.
pub(crate) fn side(
    alloc: Global,
    tree: &Tree,
    recall: &Recall,
    firsts: &[u32],
    player: u32,
) -> Result<Side, Memory>
    requires recall { IsRecallOf (game_of_tree tree.now) recall.now }
    requires firsts { AreFirsts (game_of_tree tree.now) player firsts.now }
    ensures { IfOk result (λ side. side ≡ tree_side (game_of_tree tree.now) player) }
{
    let mut rows = Vec::new(alloc);
    for set in tree.sets_of(player) {
        rows.push(own_set_row(tree, recall, firsts, player, *set as usize))?;
    }
    Ok(Side::new(firsts[tree.sets().len()], rows))
}
