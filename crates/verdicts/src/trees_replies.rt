// A player's replies: what nodes and actions are worth, and which actions are best.
ghost use Rattle.std.specs.Prelude.{◌≡◌, ◌<◌, false, true};
ghost use Rattle.rational.specs.Rational.{◌≤ℚ◌, ◌<ℚ◌};

use frac128::{Frac, Unfit};
use game_core::Tree;

/// A player to whom a behaviour of the others leaves a reply. Players, nodes, sets and actions are
/// numbered from 0.
#[derive(Drop)]
pub(crate) struct TreeReplies<'a> {
    /// The tree.
    pub(crate) tree: &'a Tree,
    /// For each node its children, one for each action of its set in order.
    pub(crate) children: &'a [Vec<u32>],
    /// For each node its weight: the product of the probabilities of chance's and the others'
    /// actions on the path to it.
    pub(crate) weights: &'a [Frac],
    /// The player.
    pub(crate) player: u32,
}

// Whether an action's value is the greatest so far, where the actions before have this greatest
// one.
fn is_greater(action: usize, most: Frac, value: Frac) -> bool
    ensures greater { result ≡ true → 0 < action → most <ℚ value }
    ensures otherwise { result ≡ false → (0 < action) × (value ≤ℚ most) }
{
    action == 0 || most.cmp(value).is_lt()
}

impl<'a> TreeReplies<'a> {
    ghost use Rattle.std.specs.Prelude.{◌≡◌, ◌<◌, ℕ, suc, length, All, MatchResult, Some};
    ghost use Rattle.game_theory.specs.Behaviour.{Behaviour};
    ghost use Rattle.frac128.specs.Steps.{StepFits, IsFirstUnfit, StepsGive};
    ghost use Rattle.best_replies.specs.Replies.{action_value, reply_value};
    ghost use Rattle.verdicts.specs.TreeReplies.{
      IsChoiceList,
      AreDecided,
      AreTreeReplies,
      OwnSetsFrom,
      after_steps_at,
      after_sum_at,
      tree_game_at,
    };
    ghost use Rattle.verdicts.specs.TreeSteps.{
      action_steps,
      children_steps,
      children_sum,
      decision_steps,
      decisions,
      reply_steps,
    };

    /// The reply value of a node, where the values after the player's own nodes from there on are
    /// known.
    ///
    /// # Errors
    ///
    /// The first step that does not fit.
    #[cycle(values)]
    pub(crate) fn value(&self, choices: &[u32], values: &[Frac], node: usize) -> Result<Frac, Unfit>
        requires replies { AreTreeReplies self.now }
        requires choices { IsChoiceList (tree_game_at self.now) self.now.player choices.now }
        requires values { length values.now ≡ length self.now.tree.now.nodes }
        requires node { node < length self.now.tree.now.nodes }
        ensures { (b : Behaviour) (choice : ℕ → ℕ) (first : ℕ) → let t = tree_game_at self.now in
            let i = self.now.player in
            AreDecided t b i choice self.now.weights.now choices.now values.now first 0
            → OwnSetsFrom t i node first
            → StepsGive (reply_steps t b i choice node) (reply_value t b i choice node) result }
    {
        let following = self.value_after(choices, values, node)?;
        let worth = self.weights[node].mul(self.tree.pays(node, self.player as usize))?;
        worth.add(following)
    }

    // The sum of the reply values after a node.
    #[cycle(values)]
    fn value_after(&self, choices: &[u32], values: &[Frac], node: usize) -> Result<Frac, Unfit>
        requires replies { AreTreeReplies self.now }
        requires choices { IsChoiceList (tree_game_at self.now) self.now.player choices.now }
        requires values { length values.now ≡ length self.now.tree.now.nodes }
        requires node { node < length self.now.tree.now.nodes }
        ensures { (b : Behaviour) (choice : ℕ → ℕ) (first : ℕ) → let t = tree_game_at self.now in
            let i = self.now.player in
            AreDecided t b i choice self.now.weights.now choices.now values.now first 0
            → OwnSetsFrom t i node first
            → StepsGive (after_steps_at t b i choice node) (after_sum_at t b i choice node) result }
    {
        let Some(set) = self.tree.set_at(node) else {
            return Ok(Frac::zero());
        };
        if self.tree.is_own(set as usize, self.player) {
            let child = self.children[node][choices[set as usize] as usize];
            Frac::zero().add(values[child as usize])
        } else {
            self.children_sum(choices, values, node, set as usize)
        }
    }

    // The sum of the reply values of all children of a node with this set.
    #[cycle(values)]
    fn children_sum(
        &self,
        choices: &[u32],
        values: &[Frac],
        node: usize,
        set: usize,
    ) -> Result<Frac, Unfit>
        requires replies { AreTreeReplies self.now }
        requires choices { IsChoiceList (tree_game_at self.now) self.now.player choices.now }
        requires values { length values.now ≡ length self.now.tree.now.nodes }
        requires node { node < length self.now.tree.now.nodes }
        requires set { (tree_game_at self.now).set node ≡ Some set }
        ensures { (b : Behaviour) (choice : ℕ → ℕ) (first : ℕ) → let t = tree_game_at self.now in
            let i = self.now.player in
            AreDecided t b i choice self.now.weights.now choices.now values.now first 0
            → OwnSetsFrom t i node first
            → StepsGive (children_steps t b i choice (reply_steps t b i choice) node set)
            (children_sum t b i choice node set) result }
    {
        let mut sum = Frac::zero();
        for action in 0..self.tree.action_count(set) {
            let child = self.children[node][action] as usize;
            sum = sum.add(self.value(choices, values, child)?)?;
        }
        Ok(sum)
    }

    // What an action of an own set is worth. Writes the reply values of the nodes to which it
    // leads.
    fn action_value(
        &self,
        choices: &[u32],
        values: &mut [Frac],
        set: usize,
        action: usize,
    ) -> Result<Frac, Unfit>
        requires replies { AreTreeReplies self.now }
        requires choices { IsChoiceList (tree_game_at self.now) self.now.player choices.now }
        requires values { length values.old ≡ length self.now.tree.now.nodes }
        requires set { set < length self.now.tree.now.sets }
        requires own { (tree_game_at self.now).owner set ≡ Some self.now.player }
        requires action { action < (tree_game_at self.now).actions set }
        ensures { (b : Behaviour) (choice : ℕ → ℕ) → let t = tree_game_at self.now in
            let i = self.now.player in
            AreDecided t b i choice self.now.weights.now choices.now values.old (suc set) action
            → MatchResult result
            (λ x. (x ≡ action_value t b i choice set action)
            × AreDecided t b i choice self.now.weights.now choices.now values.new (suc set)
            (suc action)
            × All StepFits (action_steps t b i choice set action))
            (IsFirstUnfit (action_steps t b i choice set action)) }
    {
        let members = self.tree.sets()[set].members();
        let mut sum = Frac::zero();
        for member in members {
            let child = self.children[*member as usize][action] as usize;
            let value = self.value(choices, values, child)?;
            values[child] = value;
            sum = sum.add(value)?;
        }
        Ok(sum)
    }

    // Decides an own set: its first action that is worth most.
    fn decide(&self, choices: &mut [u32], values: &mut [Frac], set: usize) -> Result<(), Unfit>
        requires replies { AreTreeReplies self.now }
        requires choices { IsChoiceList (tree_game_at self.now) self.now.player choices.old }
        requires values { length values.old ≡ length self.now.tree.now.nodes }
        requires set { set < length self.now.tree.now.sets }
        requires own { (tree_game_at self.now).owner set ≡ Some self.now.player }
        ensures choices { IsChoiceList (tree_game_at self.now) self.now.player choices.new }
        ensures decided { (b : Behaviour) (choice : ℕ → ℕ) → let t = tree_game_at self.now in
            let i = self.now.player in
            AreDecided t b i choice self.now.weights.now choices.old values.old (suc set) 0
            → MatchResult result
            (λ _. AreDecided t b i choice self.now.weights.now choices.new values.new set 0
            × All StepFits (decision_steps t b i choice set))
            (IsFirstUnfit (decision_steps t b i choice set)) }
    {
        self.tree.stands_for_game_tree();
        let mut best = 0;
        let mut most = Frac::zero();
        for action in 0..self.tree.action_count(set) {
            let value = self.action_value(choices, values, set, action)?;
            if is_greater(action, most, value) {
                best = action;
                most = value;
            }
        }
        choices[set] = best as u32;
        Ok(())
    }

    /// Decides the player's own sets, from the last to the first.
    ///
    /// # Errors
    ///
    /// The first step that does not fit.
    pub(crate) fn decide_all(&self, choices: &mut [u32], values: &mut [Frac]) -> Result<(), Unfit>
        requires replies { AreTreeReplies self.now }
        requires choices { IsChoiceList (tree_game_at self.now) self.now.player choices.old }
        requires values { length values.old ≡ length self.now.tree.now.nodes }
        ensures choices { IsChoiceList (tree_game_at self.now) self.now.player choices.new }
        ensures decided { (b : Behaviour) (choice : ℕ → ℕ) → let t = tree_game_at self.now in
            let i = self.now.player in
            AreDecided t b i choice self.now.weights.now choices.old values.old t.sets 0
            → MatchResult result
            (λ _. AreDecided t b i choice self.now.weights.now choices.new values.new 0 0
            × All StepFits (decisions t b i choice))
            (IsFirstUnfit (decisions t b i choice)) }
    {
        for set in self.tree.sets_of(self.player).iter().rev() {
            self.decide(choices, values, *set as usize)?;
        }
        Ok(())
    }
}
