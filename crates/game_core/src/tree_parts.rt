// The parts of a tree's nodes and information sets, as the game has them that the tree stands for.
// Nothing here takes memory.
ghost use Rattle.std.specs.Prelude.{◌≡◌, ◌<◌, length, MatchOption};
ghost use Rattle.game_theory.specs.Behaviour.{is_own};
ghost use Rattle.game_theory.specs.FirstNodes.{AreNumberedByFirstNodes};
ghost use Rattle.game_theory.specs.OwnSets.{Chooses, NobodyChooses};
ghost use Rattle.game_theory.specs.Trees.{IsTree as is_game_tree};
ghost use Rattle.game_core.specs.Tree.{IsGameTree};
ghost use Rattle.game_core.specs.TreeGame.{game_of_tree};

use crate::tree::{Tree, sets_are_numbered_by_first_nodes, trees_are_game_trees};
use frac128::Frac;

impl Tree {
    /// What a tree stands for is a game tree whose sets are numbered by their first nodes. Does
    /// nothing.
    pub fn stands_for_game_tree(&self)
        ensures valid { IsGameTree self.now }
        ensures game { is_game_tree (game_of_tree self.now) }
        ensures numbered { AreNumberedByFirstNodes (game_of_tree self.now) }
    {
        trees_are_game_trees();
        sets_are_numbered_by_first_nodes();
        self.title();
    }

    /// The node before this one; the root stands in its own place.
    pub fn parent(&self, node: usize) -> usize
        requires { node < length self.now.nodes }
        ensures { result ≡ (game_of_tree self.now).parent node }
    {
        self.nodes()[node].parent.unwrap_or(0) as usize
    }

    /// The parent's action that leads here.
    pub fn branch(&self, node: usize) -> u32
        requires { node < length self.now.nodes }
        ensures { result ≡ (game_of_tree self.now).branch node }
    {
        self.nodes()[node].branch
    }

    /// The information set of a node, and nothing at an end.
    pub fn set_at(&self, node: usize) -> Option<u32>
        requires { node < length self.now.nodes }
        ensures { result ≡ (game_of_tree self.now).set node }
    {
        self.nodes()[node].set
    }

    /// The owner of a set, and nothing where it is chance.
    pub fn owner(&self, set: usize) -> Option<u32>
        requires { set < length self.now.sets }
        ensures { result ≡ (game_of_tree self.now).owner set }
    {
        self.sets()[set].owner()
    }

    /// Whether a player owns a set.
    pub fn is_own(&self, set: usize, player: u32) -> bool
        requires { set < length self.now.sets }
        ensures { result ≡ is_own (game_of_tree self.now) player set }
    {
        self.owner(set) == Some(player)
    }

    /// The player who chooses at a node, and the node's set; nothing where no player does.
    pub fn choice_at(&self, node: usize) -> Option<(u32, u32)>
        requires { node < length self.now.nodes }
        ensures { MatchOption result (NobodyChooses (game_of_tree self.now) node)
            (λ it. Chooses (game_of_tree self.now) node it.0 it.1) }
    {
        self.stands_for_game_tree();
        let set = self.set_at(node)?;
        let player = self.owner(set as usize)?;
        Some((player, set))
    }

    /// How many actions a set has.
    pub fn action_count(&self, set: usize) -> usize
        requires { set < length self.now.sets }
        ensures { result ≡ (game_of_tree self.now).actions set }
    {
        self.sets()[set].actions().len()
    }

    /// The probability of an action at a set of chance.
    pub fn probability(&self, set: usize, action: usize) -> Frac
        requires set { set < length self.now.sets }
        requires action { action < (game_of_tree self.now).actions set }
        ensures { result ≡ (game_of_tree self.now).chance set action }
    {
        self.sets()[set].actions()[action].prob
    }

    /// What the outcome of a node pays a player: 0 where there is none.
    pub fn pays(&self, node: usize, player: usize) -> Frac
        requires node { node < length self.now.nodes }
        requires player { player < length self.now.players }
        ensures { result ≡ (game_of_tree self.now).pays node player }
    {
        match self.nodes()[node].outcome {
            Some(outcome) => self.outcomes()[outcome as usize].payoffs()[player],
            None => Frac::zero(),
        }
    }
}
