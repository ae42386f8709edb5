// The first player's plan out of raw weights.
ghost use Rattle.std.specs.Prelude.{All, ◌≡◌, ◌≢◌, ◌+◌, ◌<◌, ◌≤◌, ℕ, length, IfOk, IfErr, OnOk};
ghost use Rattle.answers.specs.Answers.{map_ok};
ghost use Rattle.rational.specs.Rational.{◌+ℚ◌, ◌-ℚ◌};
ghost use Rattle.rational.specs.Sum.{sum_to, entry_at};
ghost use Rattle.frac128.specs.Steps.{StepFits, IsFirstUnfit};
ghost use Rattle.sequence_forms.specs.Sides.{sequences};
ghost use Rattle.sequence_data.specs.Data.{IsSideData, side_of};
ghost use Rattle.zero_sum_lp.specs.PlanLists.{weights_from};
ghost use Rattle.zero_sum_lp.specs.PlanSteps.{raise_steps, rest_steps};
ghost use Rattle.zero_sum_lp.specs.PlanStops.{raised_in};

use crate::weights::{set_weight, weight_at};
use frac128::{Frac, Unfit};
use sequence_data::Side;

// What the weights of a set's actions leave of the weight before the set.
fn remaining(weights: &[Frac], before: usize, first: usize, count: usize) -> Result<Frac, Unfit>
    requires before_in { before < length weights.now }
    requires actions_in { first + count ≤ length weights.now }
    ensures value { IfOk result (λ rest. rest
        ≡ entry_at weights.now before -ℚ sum_to count (weights_from weights.now first)) }
    ensures fits { OnOk result (All StepFits
        (rest_steps (entry_at weights.now before) (weights_from weights.now first) count)) }
    ensures unfit { IfErr result (IsFirstUnfit
        (rest_steps (entry_at weights.now before) (weights_from weights.now first) count)) }
{
    let mut rest = weight_at(weights, before);
    for action in 0..count {
        rest = rest.sub(weight_at(weights, first + action))?;
    }
    Ok(rest)
}

// Adds what a set's weights lack to its first action's.
fn raise_set(weights: &mut [Frac], before: usize, first: usize, count: usize) -> Result<(), Unfit>
    requires before_in { before < length weights.old }
    requires some_action { 0 < count }
    requires actions_in { first + count ≤ length weights.old }
    ensures length { length weights.new ≡ length weights.old }
    ensures raised { OnOk result (entry_at weights.new first ≡ entry_at weights.old first
        +ℚ (entry_at weights.old before -ℚ sum_to count (weights_from weights.old first))) }
    ensures others { (q : ℕ) → q ≢ first → entry_at weights.new q ≡ entry_at weights.old q }
    ensures fits { OnOk result (All StepFits
        (raise_steps (entry_at weights.old before) (weights_from weights.old first) count)) }
    ensures unfit { IfErr result (IsFirstUnfit
        (raise_steps (entry_at weights.old before) (weights_from weights.old first) count)) }
{
    let rest = remaining(weights, before, first, count)?;
    let raised = weight_at(weights, first).add(rest)?;
    set_weight(weights, first, raised);
    Ok(())
}

/// Makes the plan in place.
///
/// # Errors
///
/// The first step that does not fit.
pub(crate) fn raise(weights: &mut [Frac], side: &Side) -> Result<(), Unfit>
    requires side { IsSideData side.now }
    requires shape { length weights.old ≡ sequences (side_of side.now) }
    ensures length { length weights.new ≡ length weights.old }
    ensures stage { raised_in (side_of side.now) (entry_at weights.old)
        (map_ok result (λ _. weights.new)) }
{
    set_weight(weights, 0, Frac::one());
    for j in 0..side.sets().len() {
        let set = side.own_set(j);
        raise_set(
            weights,
            set.before as usize,
            set.first as usize,
            set.count as usize,
        )?;
    }
    Ok(())
}
