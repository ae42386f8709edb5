// What a choice at each set pays.
ghost use Rattle.std.specs.Prelude.{◌≡◌, ◌<◌, length};
ghost use Rattle.frac128.specs.Fraction.{Fits};
ghost use Rattle.game_theory.specs.Children.{AreChildren};
ghost use Rattle.pure_payoffs.specs.Stops.{at_node};

use crate::choices::Choices;
use crate::shortcuts::{Entries, Shortcuts};
use crate::stop::{PayoffStop, ValueStop};
use frac128::{Frac, Unfit};
use game_core::Tree;

/// One action at each player's set of a tree.
#[derive(Clone, Copy, Debug)]
pub struct Play<'a> {
    /// The tree.
    pub tree: &'a Tree,
    /// For each node its children, one for each action of its set in order.
    pub children: &'a [Vec<u32>],
    /// The actions.
    pub choices: Choices<'a>,
}

// Why the values of nodes were not computed, by why those of this node were not.
fn at_node(node: u32, stop: PayoffStop) -> ValueStop
    ensures { result ≡ at_node node stop }
{
    match stop {
        PayoffStop::Range { player, unfit } => ValueStop::Range {
            node,
            player,
            unfit,
        },
        PayoffStop::Memory => ValueStop::Memory,
    }
}

// A fraction fits. Does nothing.
fn fits(value: Frac)
    ensures { Fits value }
{
    value.num();
}

impl<'a> Play<'a> {
    ghost use Rattle.std.specs.Prelude.{◌≡◌, ◌<◌, ◌++◌, All, length, map, Some, None, OnOk};
    ghost use Rattle.rational.specs.Rational.{◌+ℚ◌, ◌*ℚ◌};
    ghost use Rattle.answers.specs.Answers.{Gives};
    ghost use Rattle.game_theory.specs.Lines.{listed};
    ghost use Rattle.game_theory.specs.Behaviour.{payoff, pure, value};
    ghost use Rattle.pure_payoffs.specs.Choices.{AreChoices};
    ghost use Rattle.pure_payoffs.specs.Plays.{IsPlayed, choice_of, game_of};
    ghost use Rattle.pure_payoffs.specs.Shortcuts.{KeepShortcuts};
    ghost use Rattle.frac128.specs.Steps.{StepsGive};
    ghost use Rattle.pure_payoffs.specs.Steps.{branch_steps, steps_after, steps_at, value_after};
    ghost use Rattle.pure_payoffs.specs.Stops.{all_values_fit, node_values, payoffs_fit, values_fit};
    ghost use Rattle.pure_payoffs.specs.declared.stop.PayoffStop.TheVariants as stops;
    ghost use Rattle.pure_payoffs.specs.declared.stop.ValueStop.TheVariants as value_stops;

    /// Adds to a list what the choices pay each player in order. `shortcuts` are those of the tree.
    ///
    /// # Errors
    ///
    /// `Range` exactly where a step does not fit: the first, players in order. `Memory` where
    /// memory ran out. What the list then holds is not said.
    pub fn push_payoffs(
        &self,
        shortcuts: &mut Shortcuts,
        payoffs: &mut Vec<Frac>,
    ) -> Result<(), PayoffStop>
        requires children { AreChildren (game_of self.now)
            (map (λ v. v.items) self.now.children.now) }
        requires choices { AreChoices (game_of self.now) self.now.choices }
        requires tree { shortcuts.old ≡ self.now.tree.now }
        ensures tree { shortcuts.new ≡ shortcuts.old }
        ensures pays { let t = game_of self.now in
            let choice = choice_of self.now in
            OnOk result
            (payoffs.new.items ≡ payoffs.old.items ++ listed t.players (payoff t (pure choice))) }
        ensures stop { Gives stops.Memory
            (payoffs_fit (game_of self.now) (choice_of self.now)) result }
    {
        self.tree.stands_for_game_tree();
        shortcuts.entries.forget();
        self.push_values(&mut shortcuts.entries, 0, payoffs)
    }

    /// Adds to a list what each of these nodes is worth to each player under the choices: node by
    /// node, and in each player by player. `shortcuts` are those of the tree.
    ///
    /// # Errors
    ///
    /// `Range` exactly where a step does not fit: the first in this order. `Memory` where memory
    /// ran out. What the list then holds is not said.
    pub fn push_all_values(
        &self,
        shortcuts: &mut Shortcuts,
        nodes: &[u32],
        values: &mut Vec<Frac>,
    ) -> Result<(), ValueStop>
        requires children { AreChildren (game_of self.now)
            (map (λ v. v.items) self.now.children.now) }
        requires choices { AreChoices (game_of self.now) self.now.choices }
        requires nodes { All (λ k. k < length self.now.tree.now.nodes) nodes.now }
        requires tree { shortcuts.old ≡ self.now.tree.now }
        ensures tree { shortcuts.new ≡ shortcuts.old }
        ensures values { OnOk result (values.new.items ≡ values.old.items
            ++ node_values (game_of self.now) (choice_of self.now) nodes.now) }
        ensures stop { Gives value_stops.Memory
            (all_values_fit (game_of self.now) (choice_of self.now) nodes.now) result }
    {
        self.tree.stands_for_game_tree();
        shortcuts.entries.forget();
        self.push_each(&mut shortcuts.entries, nodes, values)
    }

    // The same with the entries of these choices.
    fn push_each(
        &self,
        entries: &mut Entries,
        nodes: &[u32],
        values: &mut Vec<Frac>,
    ) -> Result<(), ValueStop>
        requires play { IsPlayed self.now }
        requires nodes { All (λ k. k < length self.now.tree.now.nodes) nodes.now }
        requires keep { KeepShortcuts (game_of self.now) (choice_of self.now) entries.old }
        ensures keep { KeepShortcuts (game_of self.now) (choice_of self.now) entries.new }
        ensures values { OnOk result (values.new.items ≡ values.old.items
            ++ node_values (game_of self.now) (choice_of self.now) nodes.now) }
        ensures stop { Gives value_stops.Memory
            (all_values_fit (game_of self.now) (choice_of self.now) nodes.now) result }
    {
        for node in nodes {
            self.push_values(entries, *node, values)
                .map_err(|stop| at_node(*node, stop))?;
        }
        Ok(())
    }

    // Adds what a node is worth to each player in order, with the entries of these choices.
    fn push_values(
        &self,
        entries: &mut Entries,
        node: u32,
        values: &mut Vec<Frac>,
    ) -> Result<(), PayoffStop>
        requires play { IsPlayed self.now }
        requires node { node < length self.now.tree.now.nodes }
        requires keep { KeepShortcuts (game_of self.now) (choice_of self.now) entries.old }
        ensures keep { KeepShortcuts (game_of self.now) (choice_of self.now) entries.new }
        ensures values { let t = game_of self.now in
            let choice = choice_of self.now in
            OnOk result (values.new.items
            ≡ values.old.items ++ listed t.players (λ i. value t (pure choice) i node)) }
        ensures stop { Gives stops.Memory
            (values_fit (game_of self.now) (choice_of self.now) node) result }
    {
        for player in 0..self.tree.players().len() as u32 {
            let value = self
                .value(entries, node, player)
                .map_err(|unfit| PayoffStop::Range { player, unfit })?;
            values.push(value)?;
        }
        Ok(())
    }

    // What the choices pay a player from a node on.
    #[cycle(values)]
    fn value(&self, entries: &mut Entries, node: u32, player: u32) -> Result<Frac, Unfit>
        requires play { IsPlayed self.now }
        requires node { node < length self.now.tree.now.nodes }
        requires player { player < length self.now.tree.now.players }
        requires keep { KeepShortcuts (game_of self.now) (choice_of self.now) entries.old }
        ensures keep { KeepShortcuts (game_of self.now) (choice_of self.now) entries.new }
        ensures gives { let t = game_of self.now in
            let choice = choice_of self.now in
            StepsGive (steps_at t choice player node) (value t (pure choice) player node) result }
    {
        let target = entries.take(self, node);
        if let Some(value) = entries.settled_value(self, target, player) {
            fits(value);
            return Ok(value);
        }
        let value = self.value_at(entries, target, player)?;
        fits(value);
        entries.settle(self, target, player, value);
        Ok(value)
    }

    // The same, and no node is passed by.
    #[cycle(values)]
    fn value_at(&self, entries: &mut Entries, node: u32, player: u32) -> Result<Frac, Unfit>
        requires play { IsPlayed self.now }
        requires node { node < length self.now.tree.now.nodes }
        requires player { player < length self.now.tree.now.players }
        requires keep { KeepShortcuts (game_of self.now) (choice_of self.now) entries.old }
        ensures keep { KeepShortcuts (game_of self.now) (choice_of self.now) entries.new }
        ensures gives { let t = game_of self.now in
            let choice = choice_of self.now in
            StepsGive (steps_at t choice player node) (value t (pure choice) player node) result }
    {
        let pays = self.tree.pays(node as usize, player as usize);
        match self.tree.set_at(node as usize) {
            Some(set) => pays.add(self.value_after(entries, node, set, player)?),
            None => Ok(pays),
        }
    }

    // What the choices pay a player after a node with this set.
    #[cycle(values)]
    fn value_after(
        &self,
        entries: &mut Entries,
        node: u32,
        set: u32,
        player: u32,
    ) -> Result<Frac, Unfit>
        requires play { IsPlayed self.now }
        requires node { node < length self.now.tree.now.nodes }
        requires player { player < length self.now.tree.now.players }
        requires set { (game_of self.now).set node ≡ Some set }
        requires keep { KeepShortcuts (game_of self.now) (choice_of self.now) entries.old }
        ensures keep { KeepShortcuts (game_of self.now) (choice_of self.now) entries.new }
        ensures gives { let t = game_of self.now in
            let choice = choice_of self.now in
            StepsGive
            (steps_after t choice player (steps_at t choice player) node set (t.owner set))
            (value_after t choice player node set (t.owner set)) result }
    {
        match self.tree.owner(set as usize) {
            Some(owner) => {
                let action = self.action_at(owner, set);
                self.value(entries, self.children[node as usize][action], player)
            }
            None => self.chance_value(entries, node, set, player),
        }
    }

    // The sum of the products of probability and value of each child of a node of chance.
    #[cycle(values)]
    fn chance_value(
        &self,
        entries: &mut Entries,
        node: u32,
        set: u32,
        player: u32,
    ) -> Result<Frac, Unfit>
        requires play { IsPlayed self.now }
        requires node { node < length self.now.tree.now.nodes }
        requires player { player < length self.now.tree.now.players }
        requires set { (game_of self.now).set node ≡ Some set }
        requires keep { KeepShortcuts (game_of self.now) (choice_of self.now) entries.old }
        ensures keep { KeepShortcuts (game_of self.now) (choice_of self.now) entries.new }
        ensures gives { let t = game_of self.now in
            let choice = choice_of self.now in
            StepsGive (steps_after t choice player (steps_at t choice player) node set None)
            (value_after t choice player node set None) result }
    {
        let children = &self.children[node as usize];
        let mut sum = Frac::zero();
        for action in 0..self.tree.action_count(set as usize) {
            let prob = self.tree.probability(set as usize, action);
            sum = self.with_branch(entries, sum, prob, children[action], player)?;
        }
        Ok(sum)
    }

    // The sum with the product of a probability, where it is not 0, and the value of a child.
    #[cycle(values)]
    fn with_branch(
        &self,
        entries: &mut Entries,
        sum: Frac,
        prob: Frac,
        child: u32,
        player: u32,
    ) -> Result<Frac, Unfit>
        requires play { IsPlayed self.now }
        requires node { child < length self.now.tree.now.nodes }
        requires player { player < length self.now.tree.now.players }
        requires keep { KeepShortcuts (game_of self.now) (choice_of self.now) entries.old }
        ensures keep { KeepShortcuts (game_of self.now) (choice_of self.now) entries.new }
        ensures gives { let t = game_of self.now in
            let choice = choice_of self.now in
            StepsGive (branch_steps prob sum (value t (pure choice) player child)
            (steps_at t choice player child))
            (sum +ℚ prob *ℚ value t (pure choice) player child) result }
    {
        if prob.is_zero() {
            return Ok(sum);
        }
        let value = self.value(entries, child, player)?;
        sum.add(prob.mul(value)?)
    }

    // The action that the owner of a set takes there.
    pub(crate) fn action_at(&self, owner: u32, set: u32) -> usize
        requires play { IsPlayed self.now }
        requires set { set < length self.now.tree.now.sets }
        requires owner { (game_of self.now).owner set ≡ Some owner }
        ensures { result ≡ choice_of self.now set }
    {
        match self.choices {
            Choices::Reduced {
                places,
                strategies,
                profile,
            } => {
                let number = profile[owner as usize];
                let strategy = &strategies[owner as usize][number as usize];
                let place = places[set as usize];
                (strategy[place as usize] as usize).saturating_sub(1)
            }
            Choices::Actions(actions) => actions[set as usize] as usize,
        }
    }
}
