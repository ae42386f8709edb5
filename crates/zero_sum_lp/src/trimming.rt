// The second player's plan out of raw weights.
ghost use Rattle.std.specs.Prelude.{All, ◌≡◌, ◌+◌, ◌<◌, ◌≤◌, ℕ, length, IfErr, OnOk};
ghost use Rattle.answers.specs.Answers.{map_ok};
ghost use Rattle.frac128.specs.Steps.{StepFits};
ghost use Rattle.sequence_forms.specs.Sides.{sequences};
ghost use Rattle.sequence_data.specs.Data.{IsSideData, side_of};
ghost use Rattle.rational.specs.Sum.{entry_at};
ghost use Rattle.zero_sum_lp.specs.PlanLists.{AreShares, IsUnfitShare, weights_from};
ghost use Rattle.zero_sum_lp.specs.PlanSteps.{rest_steps};
ghost use Rattle.zero_sum_lp.specs.PlanStops.{trimmed_in};

use crate::weights::{set_weight, weight_at};
use frac128::{Frac, Unfit};
use sequence_data::Side;

// Shares the weight before a set out among its actions.
fn trim_set(weights: &mut [Frac], before: usize, first: usize, count: usize) -> Result<(), Unfit>
    requires before_in { before < first }
    requires actions_in { first + count ≤ length weights.old }
    ensures length { length weights.new ≡ length weights.old }
    ensures low { (q : ℕ) → q < first → entry_at weights.new q ≡ entry_at weights.old q }
    ensures high { OnOk result ((q : ℕ) → first + count ≤ q
        → entry_at weights.new q ≡ entry_at weights.old q) }
    ensures shares { OnOk result (AreShares (entry_at weights.old before)
        (weights_from weights.old first) (weights_from weights.new first) count) }
    ensures fits { OnOk result (All StepFits
        (rest_steps (entry_at weights.old before) (weights_from weights.new first) count)) }
    ensures unfit { IfErr result
        (IsUnfitShare (entry_at weights.old before) (weights_from weights.old first) count) }
{
    let mut left = weight_at(weights, before);
    for action in 0..count {
        let share = weight_at(weights, first + action).min(left);
        set_weight(weights, first + action, share);
        left = left.sub(share)?;
    }
    Ok(())
}

/// Makes the plan in place.
///
/// # Errors
///
/// The first step that does not fit.
pub(crate) fn trim(weights: &mut [Frac], side: &Side) -> Result<(), Unfit>
    requires side { IsSideData side.now }
    requires shape { length weights.old ≡ sequences (side_of side.now) }
    ensures length { length weights.new ≡ length weights.old }
    ensures stage { trimmed_in (side_of side.now) (entry_at weights.old)
        (map_ok result (λ _. weights.new)) }
{
    set_weight(weights, 0, Frac::one());
    for j in 0..side.sets().len() {
        let set = side.own_set(j);
        trim_set(
            weights,
            set.before as usize,
            set.first as usize,
            set.count as usize,
        )?;
    }
    Ok(())
}
