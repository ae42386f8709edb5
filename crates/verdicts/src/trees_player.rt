// The check of one player.
ghost use Rattle.std.specs.Prelude.{◌≡◌, ◌<◌, ◌≤◌, ℕ, All, MatchResult, length, map, slice_index, take};
ghost use Rattle.game_theory.specs.Behaviour.{Behaviour, payoff};
ghost use Rattle.game_theory.specs.OwnSets.{own_sets};
ghost use Rattle.game_core.specs.TreeGame.{game_of_tree};
ghost use Rattle.best_replies.specs.Order.{AscendOnPaths};
ghost use Rattle.best_replies.specs.Replies.{reply_value, AreBestChoices};
ghost use Rattle.frac128.specs.Steps.{StepFits, IsFirstUnfit};
ghost use Rattle.verdicts.specs.TreeBehaviours.{IsPlayedBehaviour, Reads, game_of};
ghost use Rattle.verdicts.specs.TreeReplies.{AreChosen};
ghost use Rattle.verdicts.specs.TreeSteps.{best_steps, tree_player_steps};

use crate::trees_behaviour::PlayedBehaviour;
use crate::trees_replies::TreeReplies;
use frac128::{Frac, Unfit};
use game_core::Tree;

/// What a player gets.
#[derive(Clone, Copy)]
pub(crate) struct PlayerPayoffs {
    /// What the behaviour pays.
    pub(crate) payoff: Frac,
    /// What the player's best choices pay.
    pub(crate) best: Frac,
}

// What a player's best choices pay; writes these at the player's sets.
fn best_payoff(
    played: &PlayedBehaviour,
    player: u32,
    weights: &mut [Frac],
    choices: &mut [u32],
    values: &mut [Frac],
) -> Result<Frac, Unfit>
    requires played { IsPlayedBehaviour played.now }
    requires player { player < length played.now.tree.now.players }
    requires weights { length weights.old ≡ length played.now.tree.now.nodes }
    requires choices { length choices.old ≡ length played.now.tree.now.sets }
    requires values { length values.old ≡ length played.now.tree.now.nodes }
    ensures { (b : Behaviour) (choice : ℕ → ℕ) → let t = game_of played.now in
        Reads played.now b → AscendOnPaths t player → AreBestChoices t b player choice
        → MatchResult result
        (λ best. (best ≡ reply_value t b player choice 0)
        × All StepFits (best_steps t b player choice) × AreChosen t player choice choices.new)
        (IsFirstUnfit (best_steps t b player choice)) }
{
    played.set_weights(player, weights)?;
    let replies = TreeReplies {
        tree: played.tree,
        children: played.children,
        weights,
        player,
    };
    choices.fill(0);
    replies.decide_all(choices, values)?;
    replies.value(choices, values, 0)
}

// What a behaviour pays a player, and what the best choices pay; writes these at the player's sets.
pub(crate) fn check_player(
    played: &PlayedBehaviour,
    player: u32,
    weights: &mut [Frac],
    choices: &mut [u32],
    values: &mut [Frac],
) -> Result<PlayerPayoffs, Unfit>
    requires played { IsPlayedBehaviour played.now }
    requires player { player < length played.now.tree.now.players }
    requires weights { length weights.old ≡ length played.now.tree.now.nodes }
    requires choices { length choices.old ≡ length played.now.tree.now.sets }
    requires values { length values.old ≡ length played.now.tree.now.nodes }
    ensures { (b : Behaviour) (choice : ℕ → ℕ) → let t = game_of played.now in
        Reads played.now b → AscendOnPaths t player → AreBestChoices t b player choice
        → MatchResult result
        (λ pays. (pays.payoff ≡ payoff t b player) × (pays.best ≡ reply_value t b player choice 0)
        × All StepFits (tree_player_steps t b player choice)
        × AreChosen t player choice choices.new)
        (IsFirstUnfit (tree_player_steps t b player choice)) }
{
    let payoff = played.value(player, 0)?;
    let best = best_payoff(played, player, weights, choices, values)?;
    Ok(PlayerPayoffs { payoff, best })
}

// Writes the choices at a player's own sets in order, and tells how many.
pub(crate) fn write_reply(tree: &Tree, player: u32, choices: &[u32], reply: &mut [u32]) -> usize
    requires choices { length choices.now ≡ length tree.now.sets }
    requires reply { length reply.old ≡ length tree.now.sets }
    ensures within { result ≤ length tree.now.sets }
    ensures reply { take result reply.new
        ≡ map (slice_index choices.now) (own_sets (game_of_tree tree.now) player) }
{
    let own = tree.sets_of(player);
    for (place, set) in own.iter().enumerate() {
        reply[place] = choices[*set as usize];
    }
    own.len()
}
