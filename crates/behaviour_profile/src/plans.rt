// The behaviour of two plans.
ghost use Rattle.std.specs.Prelude.{
  ◌≡◌,
  ◌+◌,
  ◌<◌,
  ◌≤◌,
  ◌++◌,
  ℕ,
  List,
  length,
  slice_index,
  OnOk,
  Ok,
};
ghost use Rattle.answers.specs.Answered.{IsAnswered};
ghost use Rattle.answers.specs.Answers.{Gives, IsSingle};
ghost use Rattle.rational.specs.Rational.{ℚ};
ghost use Rattle.frac128.specs.Steps.{StepsGive};
ghost use Rattle.game_theory.specs.Lines.{listed};
ghost use Rattle.game_theory.specs.OwnSets.{own_sets};
ghost use Rattle.game_theory.specs.TreeEntries.{entries_at};
ghost use Rattle.sequence_forms.specs.PlanBehaviour.{behaviour_of, share};
ghost use Rattle.game_core.specs.Tree.{GameTree, label_of};
ghost use Rattle.game_core.specs.TreeGame.{game_of_tree};
ghost use Rattle.rational.specs.Sum.{entry_at};
ghost use Rattle.sequence_form.specs.Forms.{tree_form};
ghost use Rattle.sequence_form.specs.Sequences.{tree_side};
ghost use Rattle.behaviour_profile.specs.declared.plans.BehaviourStop.TheVariants as stops;
ghost use Rattle.behaviour_profile.specs.Plans.{own_quotients_in, plan_behaviour, share_steps};
ghost use Rattle.behaviour_profile.specs.Shares.{share_at, shares_in};

use crate::Behaviour;
use frac128::{Frac, Unfit};
use game_core::Tree;
use sequence_data::{SeqForm, SetRow, Side};
use std::alloc::{AllocFailed, Global};

/// Why there is no behaviour of two plans.
#[derive(Clone, Copy, Debug, PartialEq, Eq)]
pub enum BehaviourStop {
    /// A quotient does not fit: the first.
    Range {
        /// The player, from 0.
        player: u32,
        /// The number that the file gives the set.
        set: u64,
        /// The step.
        unfit: Unfit,
    },
    /// Memory ran out.
    Memory,
}

impl<T: Drop> From<AllocFailed<T>> for BehaviourStop {
    ghost use Rattle.std.specs.Prelude.{◌≡◌};
    ghost use Rattle.behaviour_profile.specs.declared.plans.BehaviourStop.TheVariants as stops;

    ghost from_gives = { λ _ e. e ≡ stops.Memory };

    fn from(_refused: AllocFailed<T>) -> BehaviourStop {
        BehaviourStop::Memory
    }
}

// The weight after an action divided by the weight before its set, and where that is 0, 1 divided
// by the number of actions.
fn share(count: u32, before: Frac, after: Frac) -> Result<Frac, Unfit>
    requires { 0 < count }
    ensures { StepsGive (share_steps before after) (share count before after) result }
{
    if before.is_zero() {
        Ok(Frac::over(1, count as u128))
    } else {
        after.div(before)
    }
}

// Adds the shares of the actions of a set, which belongs to a player and has a number in the file.
fn push_shares(
    entries: &mut Vec<Frac>,
    plan: &[Frac],
    row: SetRow,
    player: u32,
    label: u64,
) -> Result<(), BehaviourStop>
    requires before { row.before < length plan.now }
    requires after { row.first + row.count ≤ length plan.now }
    ensures shares { OnOk result
        (entries.new.items ≡ entries.old.items ++ listed row.count (share_at plan.now row)) }
    ensures steps { Gives stops.Memory (shares_in plan.now row player label) result }
{
    let before = plan[row.before as usize];
    let first = row.first as usize;
    for action in 0..row.count as usize {
        match share(row.count, before, plan[first + action]) {
            Ok(share) => entries.push(share)?,
            Err(unfit) => {
                return Err(BehaviourStop::Range {
                    player,
                    set: label,
                    unfit,
                });
            }
        }
    }
    Ok(())
}

// The number that the file gives the set at a place among a player's own sets.
fn label(tree: &Tree, player: u32, place: u32) -> u64
    requires { place < length (own_sets (game_of_tree tree.now) player) }
    ensures { let sets = own_sets (game_of_tree tree.now) player in
        result ≡ label_of tree.now (slice_index sets place) }
{
    let own = tree.sets_of(player);
    let set = own[place as usize] as usize;
    tree.sets()[set].label()
}

// Adds the entries of a player's plan.
fn push_plan(
    entries: &mut Vec<Frac>,
    tree: &Tree,
    player: u32,
    side: &Side,
    plan: &[Frac],
) -> Result<(), BehaviourStop>
    requires side { side.now ≡ tree_side (game_of_tree tree.now) player }
    requires plan { length plan.now ≡ side.now.sequences }
    ensures added { let t = game_of_tree tree.now in
        (plans : ℕ → ℕ → ℚ) → plans player ≡ entry_at plan.now → OnOk result
        (entries.new.items
        ≡ entries.old.items ++ entries_at t (behaviour_of t plans) (own_sets t player)) }
    ensures steps { (plans : ℕ → ℕ → ℚ) → plans player ≡ entry_at plan.now
        → Gives stops.Memory (own_quotients_in tree.now plans player) result }
{
    tree.stands_for_game_tree();
    let sets = side.sets();
    for place in 0..sets.len() {
        let label = label(tree, player, place as u32);
        push_shares(entries, plan, sets[place], player, label)?;
    }
    Ok(())
}

impl Behaviour {
    /// The behaviour of two plans on a tree: each action's entry is its sequence's weight divided
    /// by the weight before its set, and where that is 0, 1 divided by the number of actions.
    /// `form` is the tree's sequence form; `one` and `two` have a weight for each sequence of
    /// players one and two.
    ///
    /// # Errors
    ///
    /// `Range` exactly at the first quotient that does not fit, in the order of the players, their
    /// sets and the actions. `Memory` where memory ran out.
    pub fn from_plans(
        alloc: Global,
        tree: &Tree,
        form: &SeqForm,
        one: &[Frac],
        two: &[Frac],
    ) -> Result<Behaviour, BehaviourStop>
        requires form { tree_form tree.now (Ok form.now) }
        requires one { length one.now ≡ form.now.first.sequences }
        requires two { length two.now ≡ form.now.second.sequences }
        ensures { Gives stops.Memory (plan_behaviour tree.now one.now two.now) result }
    {
        let mut entries = Vec::new(alloc);
        push_plan(&mut entries, tree, 0, form.first(), one)?;
        push_plan(&mut entries, tree, 1, form.second(), two)?;
        Ok(Behaviour { entries })
    }
}

/// Two lists of weights have at most one answer: their behaviour, or the first quotient that does
/// not fit.
pub fn plan_behaviours_are_single()
    ensures { (t : GameTree) (one two : List ℚ) → IsSingle (plan_behaviour t one two) }
{}

/// Two lists of weights have an answer: their behaviour, or the first quotient that does not fit.
pub fn plan_behaviours_are_answered()
    ensures { (t : GameTree) (one two : List ℚ) → IsAnswered (plan_behaviour t one two) }
{}
