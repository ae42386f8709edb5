// Points divided by the sums of their entries.
ghost use Rattle.std.specs.Prelude.{[], length};
ghost use Rattle.rational.specs.Sum.{sum_to, entry_at};
ghost use Rattle.answers.specs.Answers.{Gives, map_ok};
ghost use Rattle.frac128.specs.Steps.{StepsGive, sum_steps};
ghost use Rattle.label_pairing.specs.Scaling.{IsScalable};
ghost use Rattle.label_pairing.specs.Stops.{scaled_in};
ghost use Rattle.label_pairing.specs.declared.scaling.ScaleStop.TheVariants as stops;

use answers::Memory;
use basis_enum::Vertex;
use frac128::{Frac, Unfit};
use std::alloc::{AllocError, AllocFailed, Global};

/// Why a point was not scaled.
#[derive(Clone, Copy, Debug, PartialEq, Eq)]
pub enum ScaleStop {
    /// A step does not fit: the first.
    Range {
        /// The step.
        unfit: Unfit,
    },
    /// Memory ran out.
    Memory,
}

impl From<AllocError> for ScaleStop {
    ghost use Rattle.std.specs.Prelude.{◌≡◌};
    ghost use Rattle.label_pairing.specs.declared.scaling.ScaleStop.TheVariants as stops;

    ghost from_gives = { λ _ e. e ≡ stops.Memory };

    fn from(_error: AllocError) -> ScaleStop {
        ScaleStop::Memory
    }
}

impl<T: Drop> From<AllocFailed<T>> for ScaleStop {
    ghost use Rattle.std.specs.Prelude.{◌≡◌};
    ghost use Rattle.label_pairing.specs.declared.scaling.ScaleStop.TheVariants as stops;

    ghost from_gives = { λ _ e. e ≡ stops.Memory };

    fn from(_refused: AllocFailed<T>) -> ScaleStop {
        ScaleStop::Memory
    }
}

impl From<Unfit> for ScaleStop {
    ghost use Rattle.std.specs.Prelude.{◌≡◌};
    ghost use Rattle.label_pairing.specs.declared.scaling.ScaleStop.TheVariants as stops;

    ghost from_gives = { λ unfit e. e ≡ stops.Range unfit };

    fn from(unfit: Unfit) -> ScaleStop {
        ScaleStop::Range { unfit }
    }
}

// The sum of the entries of a point.
fn sum(point: &[Frac]) -> Result<Frac, Unfit>
    ensures { StepsGive (sum_steps (length point.now) (entry_at point.now) (λ _. []))
        (sum_to (length point.now) (entry_at point.now)) result }
{
    let mut sum = Frac::zero();
    for entry in point {
        sum = sum.add(*entry)?;
    }
    Ok(sum)
}

/// The values of a vertex, each divided by the sum of all.
///
/// # Errors
///
/// `Range` exactly where a step does not fit, with the first: the values are added in order to a
/// sum that begins at 0, and then each value is divided by the sum. `Memory` where memory ran out.
pub fn scale(alloc: Global, vertex: &Vertex) -> Result<Vec<Frac>, ScaleStop>
    requires { IsScalable vertex.now.point.items }
    ensures { Gives stops.Memory (scaled_in vertex.now.point.items)
        (map_ok result (λ scaled. scaled.items)) }
{
    let point = vertex.point.as_slice();
    let sum = sum(point)?;
    let mut scaled = Vec::with_capacity(alloc, point.len())?;
    for entry in point {
        scaled.push(entry.div(sum)?)?;
    }
    Ok(scaled)
}
