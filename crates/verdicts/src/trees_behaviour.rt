// A behaviour on a tree: what it pays, and the weights of the nodes.
ghost use Rattle.std.specs.Prelude.{◌≡◌, ◌<◌, length};
ghost use Rattle.game_theory.specs.Behaviour.{Behaviour};

use frac128::{Frac, Unfit};
use game_core::Tree;

/// A behaviour on a tree, as a check reads it. Players, nodes, sets and actions are numbered
/// from 0.
#[derive(Drop)]
pub(crate) struct PlayedBehaviour<'a> {
    /// The tree.
    pub(crate) tree: &'a Tree,
    /// For each node its children, one for each action of its set in order.
    pub(crate) children: &'a [Vec<u32>],
    /// For each player's set the place of its first entry.
    pub(crate) starts: &'a [usize],
    /// The entries of the behaviour.
    pub(crate) entries: &'a [Frac],
}

impl<'a> PlayedBehaviour<'a> {
    ghost use Rattle.std.specs.Prelude.{◌≡◌, ◌<◌, length, All, MatchResult, Some};
    ghost use Rattle.rational.specs.Rational.{◌+ℚ◌, ◌*ℚ◌};
    ghost use Rattle.game_theory.specs.Behaviour.{Behaviour, action_probability, value};
    ghost use Rattle.pure_payoffs.specs.Steps.{branch_steps};
    ghost use Rattle.frac128.specs.Steps.{StepFits, IsFirstUnfit, StepsGive};
    ghost use Rattle.best_replies.specs.Reaching.{weight};
    ghost use Rattle.verdicts.specs.TreeBehaviours.{IsPlayedBehaviour, Reads, game_of};
    ghost use Rattle.verdicts.specs.TreeSteps.{
      behaviour_steps_after,
      behaviour_steps_at,
      behaviour_value_after,
      weight_step,
      tree_weight_steps,
    };
    ghost use Rattle.verdicts.specs.TreeWeights.{AreWeights};

    /// The probability of an action at a set.
    fn probability(&self, set: usize, action: usize) -> Frac
        requires played { IsPlayedBehaviour self.now }
        requires set { set < (game_of self.now).sets }
        requires action { action < (game_of self.now).actions set }
        ensures { (b : Behaviour) → Reads self.now b
            → result ≡ action_probability (game_of self.now) b set action }
    {
        match self.tree.owner(set) {
            Some(_) => self.entries[self.starts[set] + action],
            None => self.tree.probability(set, action),
        }
    }

    /// What the behaviour pays a player from a node on.
    ///
    /// # Errors
    ///
    /// The first step that does not fit.
    #[cycle(values)]
    pub(crate) fn value(&self, player: u32, node: usize) -> Result<Frac, Unfit>
        requires played { IsPlayedBehaviour self.now }
        requires node { node < length self.now.tree.now.nodes }
        requires player { player < length self.now.tree.now.players }
        ensures { (b : Behaviour) → Reads self.now b → let t = game_of self.now in
            StepsGive (behaviour_steps_at t b player node) (value t b player node) result }
    {
        let pays = self.tree.pays(node, player as usize);
        match self.tree.set_at(node) {
            Some(set) => pays.add(self.value_after(player, node, set as usize)?),
            None => Ok(pays),
        }
    }

    // The sum of the products of probability and value of each child of a node with this set.
    #[cycle(values)]
    fn value_after(&self, player: u32, node: usize, set: usize) -> Result<Frac, Unfit>
        requires played { IsPlayedBehaviour self.now }
        requires node { node < length self.now.tree.now.nodes }
        requires player { player < length self.now.tree.now.players }
        requires set { (game_of self.now).set node ≡ Some set }
        ensures { (b : Behaviour) → Reads self.now b → let t = game_of self.now in
            let steps = behaviour_steps_after t b player (behaviour_steps_at t b player) node set in
            StepsGive steps (behaviour_value_after t b player node set) result }
    {
        let mut sum = Frac::zero();
        for action in 0..self.tree.action_count(set) {
            let probability = self.probability(set, action);
            let child = self.children[node][action] as usize;
            sum = self.with_branch(player, sum, probability, child)?;
        }
        Ok(sum)
    }

    // The sum with the product of a probability, where it is not 0, and the value of a child.
    #[cycle(values)]
    fn with_branch(
        &self,
        player: u32,
        sum: Frac,
        probability: Frac,
        child: usize,
    ) -> Result<Frac, Unfit>
        requires played { IsPlayedBehaviour self.now }
        requires node { child < length self.now.tree.now.nodes }
        requires player { player < length self.now.tree.now.players }
        ensures { (b : Behaviour) → Reads self.now b → let t = game_of self.now in
            let v = value t b player child in
            StepsGive (branch_steps probability sum v (behaviour_steps_at t b player child))
            (sum +ℚ probability *ℚ v) result }
    {
        if probability.is_zero() {
            return Ok(sum);
        }
        let value = self.value(player, child)?;
        sum.add(probability.mul(value)?)
    }

    // The weight of a node for a player, where those of the nodes before it are known.
    fn next_weight(&self, player: u32, weights: &[Frac], node: usize) -> Result<Frac, Unfit>
        requires played { IsPlayedBehaviour self.now }
        requires weights { length weights.now ≡ length self.now.tree.now.nodes }
        requires node { node < length self.now.tree.now.nodes }
        ensures { (b : Behaviour) → Reads self.now b → let t = game_of self.now in
            AreWeights t b player weights.now node
            → StepsGive (weight_step t b player node) (weight t b player node) result }
    {
        if node == 0 {
            return Ok(Frac::one());
        }
        let parent = self.tree.parent(node);
        let Some(set) = self.tree.set_at(parent) else {
            return Ok(weights[parent]);
        };
        if self.tree.is_own(set as usize, player) {
            return Ok(weights[parent]);
        }
        let probability = self.probability(set as usize, self.tree.branch(node) as usize);
        weights[parent].mul(probability)
    }

    /// Writes the weight of each node for a player: the product of the probabilities of chance's
    /// and the others' actions on the path to it.
    ///
    /// # Errors
    ///
    /// The first step that does not fit.
    pub(crate) fn set_weights(&self, player: u32, weights: &mut [Frac]) -> Result<(), Unfit>
        requires played { IsPlayedBehaviour self.now }
        requires weights { length weights.old ≡ length self.now.tree.now.nodes }
        ensures { (b : Behaviour) → Reads self.now b → let t = game_of self.now in
            MatchResult result
            (λ _. AreWeights t b player weights.new t.size
            × All StepFits (tree_weight_steps t b player))
            (IsFirstUnfit (tree_weight_steps t b player)) }
    {
        for node in 0..self.tree.nodes().len() {
            let weight = self.next_weight(player, weights, node)?;
            weights[node] = weight;
        }
        Ok(())
    }
}
