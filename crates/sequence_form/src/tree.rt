// The sequence form of a tree.
ghost use Rattle.answers.specs.Answers.{Gives};
ghost use Rattle.game_core.specs.TreeGame.{game_of_tree};
ghost use Rattle.perfect_recall.specs.Found.{IsRecallOf};
ghost use Rattle.sequence_data.specs.declared.stop.SeqStop.TheVariants as stops;
ghost use Rattle.sequence_form.specs.Forms.{tree_form};

use crate::paths::{leaves, paths};
use crate::sequences::{first_sequences, side};
use game_core::Tree;
use perfect_recall::Recall;
use sequence_data::{SeqForm, SeqStop};
use std::alloc::Global;

/// The sequence form of a tree of two players, which `recall` is of.
///
/// # Errors
///
/// `NotTwoPlayers` exactly where the tree has another number of players. `Range` exactly where it
/// has two and a step does not fit: the first. The nodes come first, in order: at each but the root
/// the chance, where the parent is chance's, then the payoffs of the first player and of the
/// second; then the leaves in order, each into its cell. `Memory` where memory ran out.
pub fn build(alloc: Global, tree: &Tree, recall: &Recall) -> Result<SeqForm, SeqStop>
    requires { IsRecallOf (game_of_tree tree.now) recall.now }
    ensures { Gives stops.Memory (tree_form tree.now) result }
{
    tree.stands_for_game_tree();
    let players = tree.players().len();
    if players != 2 {
        return Err(SeqStop::NotTwoPlayers {
            count: players as u32,
        });
    }
    let firsts_one = first_sequences(alloc, tree, 0)?;
    let firsts_two = first_sequences(alloc, tree, 1)?;
    let first = side(alloc, tree, recall, &firsts_one, 0)?;
    let second = side(alloc, tree, recall, &firsts_two, 1)?;
    let paths = paths(alloc, tree, &firsts_one, &firsts_two)?;
    let leaves = leaves(alloc, tree, &paths)?;
    SeqForm::of_leaves(alloc, first, second, leaves)
}
