// What a behaviour pays each player of a tree.
ghost use Rattle.std.specs.Prelude.{◌≡◌, IfOk};
ghost use Rattle.answers.specs.Answers.{Gives, map_ok};
ghost use Rattle.game_theory.specs.Behaviour.{Behaviour as TreeBehaviour, payoff};
ghost use Rattle.game_theory.specs.Lines.{listed};
ghost use Rattle.game_theory.specs.TreeEntries.{tree_entries};
ghost use Rattle.game_core.specs.TreeGame.{game_of_tree};
ghost use Rattle.verdicts.specs.BehaviourPayoffs.{
  BehaviourPayoffsAreSingle,
  behaviour_payoffs_fit,
};
ghost use Rattle.verdicts.specs.TreeBehaviours.{IsPlayedBehaviour, Reads, game_of};
ghost use Rattle.behaviour_profile.specs.EntryStarts.{AreBehaviourEntries};
ghost use Rattle.pure_payoffs.specs.declared.stop.PayoffStop.TheVariants as stops;

use crate::trees_behaviour::PlayedBehaviour;
use behaviour_profile::{Behaviour, starts_of};
use frac128::Frac;
use game_core::Tree;
use pure_payoffs::{PayoffStop, children_of_all};
use std::alloc::Global;

// What a played behaviour pays each player, in order.
fn payoffs_on(alloc: Global, played: &PlayedBehaviour) -> Result<Vec<Frac>, PayoffStop>
    requires played { IsPlayedBehaviour played.now }
    ensures payoffs { (b : TreeBehaviour) → Reads played.now b → let t = game_of played.now in
        IfOk result (λ payoffs. payoffs.items ≡ listed t.players (payoff t b)) }
    ensures stop { (b : TreeBehaviour) → Reads played.now b
        → Gives stops.Memory (behaviour_payoffs_fit (game_of played.now) b)
        (map_ok result (λ _. tt)) }
{
    played.tree.stands_for_game_tree();
    let mut payoffs = Vec::new(alloc);
    for player in 0..played.tree.players().len() as u32 {
        let payoff = played
            .value(player, 0)
            .map_err(|unfit| PayoffStop::Range { player, unfit })?;
        payoffs.push(payoff)?;
    }
    Ok(payoffs)
}

/// What a behaviour pays each player of its tree, in order.
///
/// # Errors
///
/// `Range` where a step does not fit: the first, players in order. `Memory` where memory ran out.
pub fn behaviour_payoffs(
    alloc: Global,
    tree: &Tree,
    behaviour: &Behaviour,
) -> Result<Vec<Frac>, PayoffStop>
    requires entries { AreBehaviourEntries tree.now behaviour.now }
    ensures payoffs { (b : TreeBehaviour) → let t = game_of_tree tree.now in
        behaviour.now ≡ tree_entries t b
        → IfOk result (λ payoffs. payoffs.items ≡ listed t.players (payoff t b)) }
    ensures stop { (b : TreeBehaviour) → let t = game_of_tree tree.now in
        behaviour.now ≡ tree_entries t b
        → Gives stops.Memory (behaviour_payoffs_fit t b) (map_ok result (λ _. tt)) }
{
    tree.stands_for_game_tree();
    let children = children_of_all(alloc, tree)?;
    let starts = starts_of(alloc, tree)?;
    let played = PlayedBehaviour {
        tree,
        children: children.as_slice(),
        starts: starts.as_slice(),
        entries: behaviour.entries(),
    };
    payoffs_on(alloc, &played)
}

/// A behaviour has at most one answer: that all steps of what it pays fit, or the first that does
/// not.
pub fn behaviour_payoffs_are_single()
    ensures { BehaviourPayoffsAreSingle }
{}
