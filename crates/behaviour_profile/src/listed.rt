// Behaviour by lists of probabilities, one for each set.
ghost use Rattle.std.specs.Prelude.{◌≡◌, ◌++◌, OnOk, map};
ghost use Rattle.behaviour_profile.specs.ListedBehaviour.{HasProbabilities, listed_behaviour};
ghost use Rattle.game_core.specs.TreeGame.{game_of_tree};
ghost use Rattle.game_theory.specs.OwnSets.{own_sets};
ghost use Rattle.game_theory.specs.TreeEntries.{entries_at};

use crate::Behaviour;
use answers::Memory;
use frac128::Frac;
use game_core::Tree;
use std::alloc::Global;

// Adds the probabilities at a player's sets.
fn push_lists(
    entries: &mut Vec<Frac>,
    tree: &Tree,
    player: u32,
    lists: &[Vec<Frac>],
) -> Result<(), Memory>
    requires lists { HasProbabilities (game_of_tree tree.now) (map (λ v. v.items) lists.now) }
    ensures { OnOk result
        (entries.new.items ≡ entries.old.items ++ entries_at (game_of_tree tree.now)
        (listed_behaviour (map (λ v. v.items) lists.now))
        (own_sets (game_of_tree tree.now) player)) }
{
    tree.stands_for_game_tree();
    for set in tree.sets_of(player) {
        entries.extend_from_slice(lists[*set as usize].as_slice())?;
    }
    Ok(())
}

impl Behaviour {
    ghost use Rattle.std.specs.Prelude.{ℕ, ◌≡◌, ◌<◌, IfOk, Some, length, map};
    ghost use Rattle.behaviour_profile.specs.EntryStarts.{AreBehaviourEntries, AreStarts};
    ghost use Rattle.behaviour_profile.specs.ListedBehaviour.{HasProbabilities, listed_behaviour};
    ghost use Rattle.game_core.specs.TreeGame.{game_of_tree};
    ghost use Rattle.game_theory.specs.Behaviour.{Behaviour as TreeBehaviour};
    ghost use Rattle.game_theory.specs.Lines.{listed};
    ghost use Rattle.game_theory.specs.TreeEntries.{tree_entries};

    /// The behaviour whose probabilities stand in lists: one for each set of the tree, and in it a
    /// number for each action. Lists of chance's sets are not read.
    ///
    /// # Errors
    ///
    /// Memory ran out.
    pub fn from_lists(alloc: Global, tree: &Tree, lists: &[Vec<Frac>]) -> Result<Behaviour, Memory>
        requires lists { HasProbabilities (game_of_tree tree.now) (map (λ v. v.items) lists.now) }
        ensures { IfOk result (λ behaviour. behaviour ≡ tree_entries (game_of_tree tree.now)
            (listed_behaviour (map (λ v. v.items) lists.now))) }
    {
        let mut entries = Vec::new(alloc);
        for player in 0..tree.players().len() {
            push_lists(&mut entries, tree, player as u32, lists)?;
        }
        Ok(Behaviour { entries })
    }

    /// The probabilities of the actions at a player's set, from 0. `starts` has for each such set
    /// the place of its first entry. Takes no memory.
    pub fn at_set(&self, tree: &Tree, starts: &[usize], set: u32) -> &[Frac]
        requires entries { AreBehaviourEntries tree.now self.now }
        requires starts { AreStarts (game_of_tree tree.now) starts.now }
        requires set { (i : ℕ) × (set < length tree.now.sets)
            × ((game_of_tree tree.now).owner set ≡ Some i) }
        ensures { (b : TreeBehaviour) → let t = game_of_tree tree.now in
            self.now ≡ tree_entries t b → result.now ≡ listed (t.actions set) (b set) }
    {
        tree.stands_for_game_tree();
        let start = starts[set as usize];
        &self.entries[start..start + tree.action_count(set as usize)]
    }
}
