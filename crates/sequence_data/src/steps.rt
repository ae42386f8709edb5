// Steps at a node or a profile.
ghost use Rattle.std.specs.Prelude.{◌≡◌, [], ◌∷◌, IfOk};
ghost use Rattle.answers.specs.Answers.{map_ok};
ghost use Rattle.rational.specs.Rational.{◌+ℚ◌, ◌*ℚ◌};
ghost use Rattle.frac128.specs.Steps.{step_of, added_product_steps};
ghost use Rattle.frac128.specs.declared.steps.Op.TheVariants.{Add, Mul};
ghost use Rattle.sequence_data.specs.Steps.{fit_at};

use crate::stop::SeqStop;
use frac128::Frac;

/// The sum of two numbers at a node or a profile.
///
/// # Errors
///
/// `Range` exactly where it does not fit.
pub fn sum(place: u32, left: Frac, right: Frac) -> Result<Frac, SeqStop>
    ensures value { IfOk result (λ v. v ≡ left +ℚ right) }
    ensures steps { fit_at place (step_of Add left right ∷ []) (map_ok result (λ _. tt)) }
{
    left.add(right)
        .map_err(|unfit| SeqStop::Range { place, unfit })
}

/// The product of two numbers at a node or a profile.
///
/// # Errors
///
/// `Range` exactly where it does not fit.
pub fn product(place: u32, left: Frac, right: Frac) -> Result<Frac, SeqStop>
    ensures value { IfOk result (λ v. v ≡ left *ℚ right) }
    ensures steps { fit_at place (step_of Mul left right ∷ []) (map_ok result (λ _. tt)) }
{
    left.mul(right)
        .map_err(|unfit| SeqStop::Range { place, unfit })
}

// A sum with the product of a chance and a payoff.
pub(crate) fn with_product(
    place: u32,
    before: Frac,
    chance: Frac,
    payoff: Frac,
) -> Result<Frac, SeqStop>
    ensures value { IfOk result (λ v. v ≡ before +ℚ (chance *ℚ payoff)) }
    ensures steps { fit_at place (added_product_steps before chance payoff)
        (map_ok result (λ _. tt)) }
{
    let part = product(place, chance, payoff)?;
    sum(place, before, part)
}
