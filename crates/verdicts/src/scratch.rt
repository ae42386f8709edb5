// Room for the check of a behaviour on a tree.
ghost use Rattle.std.specs.Prelude.{◌≡◌, ◌<◌, length, IfOk};
ghost use Rattle.game_core.specs.TreeGame.{game_of_tree};

use crate::trees_behaviour::PlayedBehaviour;
use crate::trees_player::{PlayerPayoffs, check_player, write_reply};
use answers::Memory;
use behaviour_profile::starts_of;
use frac128::{Frac, Unfit};
use game_core::Tree;
use pure_payoffs::children_of_all;
use std::alloc::Global;

/// Room for the check of a behaviour on one tree, which takes no more memory, and the reply that
/// the last check found. Nodes, sets and actions are numbered from 0.
#[derive(Debug, Drop)]
pub struct Scratch {
    // For each node its children, one for each action of its set in order.
    children: Vec<Vec<u32>>,
    // For each player's set the place of its first entry.
    starts: Vec<usize>,
    // For each node its weight for the player.
    weights: Vec<Frac>,
    // For each node after a decided set its reply value.
    values: Vec<Frac>,
    // For each decided set its action.
    choices: Vec<u32>,
    // The reply in its first places, as many as `replied` says; what stands after them counts for
    // nothing.
    reply: Vec<u32>,
    // How many sets the reply has.
    replied: usize,
}

impl Scratch {
    ghost use Rattle.std.specs.Prelude.{
      ◌≡◌,
      ◌<◌,
      ℕ,
      All,
      IfOk,
      MatchResult,
      [],
      length,
      map,
      slice_index,
    };
    ghost use Rattle.game_theory.specs.Behaviour.{Behaviour, payoff};
    ghost use Rattle.game_theory.specs.OwnSets.{own_sets};
    ghost use Rattle.game_theory.specs.TreeEntries.{tree_entries};
    ghost use Rattle.game_core.specs.Tree.{GameTree};
    ghost use Rattle.game_core.specs.TreeGame.{game_of_tree};
    ghost use Rattle.best_replies.specs.Order.{AscendOnPaths};
    ghost use Rattle.best_replies.specs.Replies.{reply_value, AreBestChoices};
    ghost use Rattle.frac128.specs.Steps.{StepFits, IsFirstUnfit};
    ghost use Rattle.verdicts.specs.TreeScratches.{IsScratchOf, choices_of, reply_of};
    ghost use Rattle.verdicts.specs.TreeReplies.{AreChosen};
    ghost use Rattle.verdicts.specs.TreeSteps.{tree_player_steps};
    ghost use Rattle.behaviour_profile.specs.EntryStarts.{AreBehaviourEntries};

    /// Room for the check of a behaviour on this tree, with no reply.
    ///
    /// # Errors
    ///
    /// Memory ran out.
    pub fn new(alloc: Global, tree: &Tree) -> Result<Scratch, Memory>
        ensures scratch { IfOk result (IsScratchOf tree.now) }
        ensures reply { IfOk result (λ scratch. reply_of scratch ≡ []) }
    {
        tree.stands_for_game_tree();
        let nodes = tree.nodes().len();
        let sets = tree.sets().len();
        Ok(Scratch {
            children: children_of_all(alloc, tree)?,
            starts: starts_of(alloc, tree)?,
            weights: vec![in alloc; Frac::zero(); nodes]?,
            values: vec![in alloc; Frac::zero(); nodes]?,
            choices: vec![in alloc; 0; sets]?,
            reply: vec![in alloc; 0; sets]?,
            replied: 0,
        })
    }

    /// The reply: the action at each of its player's own sets in order; nothing where the last
    /// check found no reply. Takes no memory.
    pub fn reply(&self) -> &[u32]
        ensures { result.now ≡ reply_of self.now }
    {
        &self.reply[..self.replied.min(self.reply.len())]
    }

    // Checks a player: what the behaviour pays, and what the best choices pay.
    pub(crate) fn check(
        &mut self,
        tree: &Tree,
        entries: &[Frac],
        player: u32,
    ) -> Result<PlayerPayoffs, Unfit>
        requires scratch { IsScratchOf tree.now self.old }
        requires entries { AreBehaviourEntries tree.now entries.now }
        requires player { player < length tree.now.players }
        ensures scratch { IsScratchOf tree.now self.new }
        ensures reply { reply_of self.new ≡ reply_of self.old }
        ensures gives { (b : Behaviour) (choice : ℕ → ℕ) → let t = game_of_tree tree.now in
            entries.now ≡ tree_entries t b → AscendOnPaths t player
            → AreBestChoices t b player choice
            → MatchResult result
            (λ pays. (pays.payoff ≡ payoff t b player)
            × (pays.best ≡ reply_value t b player choice 0)
            × All StepFits (tree_player_steps t b player choice)
            × AreChosen t player choice (choices_of self.new))
            (IsFirstUnfit (tree_player_steps t b player choice)) }
    {
        tree.stands_for_game_tree();
        let played = PlayedBehaviour {
            tree,
            children: self.children.as_slice(),
            starts: self.starts.as_slice(),
            entries,
        };
        check_player(
            &played,
            player,
            self.weights.as_mut_slice(),
            self.choices.as_mut_slice(),
            self.values.as_mut_slice(),
        )
    }

    // Keeps a player's choices as the reply.
    pub(crate) fn keep_reply(&mut self, tree: &Tree, player: u32)
        requires { IsScratchOf tree.now self.old }
        ensures scratch { IsScratchOf tree.now self.new }
        ensures reply { reply_of self.new
            ≡ map (slice_index (choices_of self.old)) (own_sets (game_of_tree tree.now) player) }
    {
        self.replied = write_reply(
            tree,
            player,
            self.choices.as_slice(),
            self.reply.as_mut_slice(),
        );
    }

    // Keeps no reply.
    pub(crate) fn forget_reply(&mut self)
        ensures scratch { (tree : GameTree) → IsScratchOf tree self.old
            → IsScratchOf tree self.new }
        ensures reply { reply_of self.new ≡ [] }
    {
        self.replied = 0;
    }
}
