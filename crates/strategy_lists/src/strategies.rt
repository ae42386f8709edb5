// The reduced strategies of the players of a tree.
ghost use Rattle.std.specs.Prelude.{◌≡◌, ◌<◌, ◌+◌, ◌^◌, ℕ, length, map, min, IfOk};
ghost use Rattle.game_core.specs.TreeGame.{game_of_tree};
ghost use Rattle.reduced_strategies.specs.Choices.{AreReducedStrategies};
ghost use Rattle.reduced_strategies.specs.Places.{ArePlaces};
ghost use Rattle.strategy_lists.specs.Decisions.{AreDecisions, HasCount};
ghost use Rattle.game_theory.specs.OwnSets.{own_counts};

use crate::count::count_reduced;
use crate::decision::Decision;
use crate::decisions::decisions_of_all;
use crate::walk::list_reduced;
use answers::Memory;
use game_core::Tree;
use std::alloc::Global;
use std::marker::Model;

// How many actions each of a player's own sets has.
fn own_action_counts(alloc: Global, tree: &Tree, player: u32) -> Result<Vec<u32>, Memory>
    ensures { IfOk result (λ counts. counts.items ≡ own_counts (game_of_tree tree.now) player) }
{
    let sets = tree.sets();
    let own = tree.sets_of(player);
    let mut counts = Vec::with_capacity(alloc, own.len())?;
    for set in own {
        counts.push(sets[*set as usize].actions().len() as u32)?;
    }
    Ok(counts)
}

/// The decisions of the players of a tree, by which their reduced strategies are counted and
/// listed. What a contract sees of them is the tree.
#[derive(Debug, Drop)]
pub struct Decisions<'a> {
    tree: &'a Tree,
    lists: Vec<Vec<Decision>>,
}

impl<'a> Model for Decisions<'a> {
    ghost use Rattle.std.specs.Prelude.{map};
    ghost use Rattle.game_core.specs.Tree.{GameTree};
    ghost use Rattle.game_core.specs.TreeCodes.{code_of_tree};
    ghost use Rattle.game_core.specs.TreeGame.{game_of_tree};
    ghost use Rattle.strategy_lists.specs.Decisions.{AreDecisionsOfAll};

    ghost Value = { GameTree };

    ghost coded = { code_of_tree };

    ghost view = { λ d. d.tree.now };

    ghost invariant = { λ d. AreDecisionsOfAll (game_of_tree d.tree.now)
        (map (λ v. v.items) d.lists.items) };
}

impl<'a> Decisions<'a> {
    /// The decisions of each player. `places` has each set's place among its owner's own sets.
    ///
    /// # Errors
    ///
    /// Memory ran out.
    pub fn new(alloc: Global, tree: &'a Tree, places: &[u32]) -> Result<Decisions<'a>, Memory>
        requires places { ArePlaces (game_of_tree tree.now) places.now }
        ensures { IfOk result (λ decisions. decisions ≡ tree.now) }
    {
        let lists = decisions_of_all(alloc, tree, places)?;
        Ok(Decisions { tree, lists })
    }

    /// The tree.
    pub fn tree(&self) -> &'a Tree
        ensures { result.now ≡ self.now }
    {
        self.tree
    }

    // The decisions of one player.
    fn of_player(&self, player: u32) -> &[Decision]
        requires { player < length self.now.players }
        ensures { AreDecisions (game_of_tree self.now) player result.now }
    {
        self.lists[player as usize].as_slice()
    }

    /// How many reduced strategies a player has, but at most one more than `most`: counting stops
    /// there.
    ///
    /// # Errors
    ///
    /// Memory ran out.
    pub fn count(&self, alloc: Global, player: u32, most: usize) -> Result<usize, Memory>
        requires player { player < length self.now.players }
        requires most { most + 1 < 2 ^ 64 }
        ensures { IfOk result (λ count. (all : ℕ) × HasCount (game_of_tree self.now) player all
            × (count ≡ min all (most + 1))) }
    {
        let actions = own_action_counts(alloc, self.tree, player)?;
        count_reduced(alloc, self.of_player(player), actions.as_slice(), most)
    }

    /// The reduced strategies of a player in order, each as a list of the actions at the player's
    /// own sets, counted from 1, with 0 for none.
    ///
    /// # Errors
    ///
    /// Memory ran out.
    pub fn list(&self, alloc: Global, player: u32) -> Result<Vec<Vec<u32>>, Memory>
        requires player { player < length self.now.players }
        ensures { IfOk result
            (λ strategies. AreReducedStrategies (game_of_tree self.now) player
            (map (λ v. v.items) strategies.items)) }
    {
        let actions = own_action_counts(alloc, self.tree, player)?;
        list_reduced(alloc, self.of_player(player), actions.as_slice())
    }
}
