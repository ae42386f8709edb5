// The sizes of sequence forms.
ghost use Rattle.std.specs.Prelude.{◌≡◌, ◌<◌, ◌^◌, length, slice_index};
ghost use Rattle.game_core.specs.Table.{strategy_counts};
ghost use Rattle.game_core.specs.TreeGame.{game_of_tree};
ghost use Rattle.game_theory.specs.OwnSets.{own_sets};
ghost use Rattle.sequence_data.specs.Sizes.{AreFew, stored_sizes};
ghost use Rattle.sequence_forms.specs.Sequences.{side_of};
ghost use Rattle.sequence_forms.specs.Sides.{sequences};
ghost use Rattle.sequence_form.specs.Sequences.{start_side, tree_side};

use crate::sequences::sequence_count_of;
use game_core::{Table, Tree};
use sequence_data::Counts;

// How many sequences a player has.
fn sequence_count(tree: &Tree, player: u32) -> u64
    ensures value { result ≡ sequences (side_of (game_of_tree tree.now) player) }
    ensures few { result < 2 ^ 32 }
{
    tree.stands_for_game_tree();
    let mut count = 1;
    for set in 0..tree.sets().len() {
        count += sequence_count_of(tree, set, player) as u64;
    }
    count
}

// How many sets a player owns.
fn set_count(tree: &Tree, player: u32) -> u64
    ensures value { result ≡ length (own_sets (game_of_tree tree.now) player) }
    ensures few { result < 2 ^ 32 }
{
    tree.stands_for_game_tree();
    tree.sets_of(player).len() as u64
}

/// The sizes of the sequence form of a tree of two players, before it is made. Takes no memory.
pub fn counts_tree(tree: &Tree) -> Counts
    requires { length tree.now.players ≡ 2 }
    ensures sizes { result ≡ stored_sizes (tree_side (game_of_tree tree.now) 0)
        (tree_side (game_of_tree tree.now) 1) }
    ensures few { AreFew result }
{
    Counts {
        sequences_one: sequence_count(tree, 0),
        sequences_two: sequence_count(tree, 1),
        sets_one: set_count(tree, 0),
        sets_two: set_count(tree, 1),
    }
}

/// The sizes of the sequence form of a table of two players, before it is made. Takes no memory.
pub fn counts_table(table: &Table) -> Counts
    requires { length table.now.players ≡ 2 }
    ensures sizes { result
        ≡ stored_sizes (start_side (slice_index (strategy_counts table.now) 0))
        (start_side (slice_index (strategy_counts table.now) 1)) }
    ensures few { AreFew result }
{
    // Its contract gives what the type keeps.
    let _players = table.players();
    Counts {
        sequences_one: table.strategies(0).len() as u64 + 1,
        sequences_two: table.strategies(1).len() as u64 + 1,
        sets_one: 1,
        sets_two: 1,
    }
}
