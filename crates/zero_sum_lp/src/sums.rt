// The sums of both players' payoffs at the leaves.
ghost use Rattle.std.specs.Prelude.{◌≡◌, ◌<◌, length, map, IfOk};
ghost use Rattle.answers.specs.Answers.{Gives, map_ok};
ghost use Rattle.zero_sum_lp.specs.declared.stop.LpStop.TheVariants as lp_stops;
ghost use Rattle.zero_sum_lp.specs.FormPrograms.{is_constant, sum_at, sums_in};

use crate::stop::{LpStop, NotConstant};
use frac128::Frac;
use sequence_data::Leaf;
use std::alloc::Global;

/// The sum at each leaf.
///
/// # Errors
///
/// `SumRange` exactly at the first that does not fit. `Memory` where memory ran out.
pub(crate) fn sums(alloc: Global, leaves: &[Leaf]) -> Result<Vec<Frac>, LpStop>
    ensures sums { IfOk result (λ sums. sums.items ≡ map sum_at leaves.now) }
    ensures stage { Gives lp_stops.Memory (sums_in leaves.now) (map_ok result (λ _. tt)) }
{
    let mut sums = Vec::with_capacity(alloc, leaves.len())?;
    for leaf in leaves {
        match leaf.one.add(leaf.two) {
            Ok(sum) => sums.push(sum)?,
            Err(unfit) => {
                return Err(LpStop::SumRange {
                    place: leaf.place,
                    unfit,
                });
            }
        }
    }
    Ok(sums)
}

/// Tests that all sums are the same number.
///
/// # Errors
///
/// The first leaf, and the first of the others whose sum differs.
pub(crate) fn test_constant(leaves: &[Leaf], sums: &[Frac]) -> Result<(), NotConstant>
    requires some_leaf { 0 < length leaves.now }
    requires sums { sums.now ≡ map sum_at leaves.now }
    ensures { is_constant leaves.now result }
{
    let first_sum = sums[0];
    for k in 1..leaves.len() {
        let second_sum = sums[k];
        if second_sum != first_sum {
            return Err(NotConstant {
                first: leaves[0].place,
                second: leaves[k].place,
                first_sum,
                second_sum,
            });
        }
    }
    Ok(())
}
