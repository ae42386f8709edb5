// The points of the vertices that stand in a pair, scaled.
ghost use Rattle.std.specs.Prelude.{◌≡◌, ◌<◌, ℕ, All, length, map, IfOk};
ghost use Rattle.std.specs.List.{range_with_len};
ghost use Rattle.answers.specs.Answers.{Gives, map_ok};
ghost use Rattle.basis_enum.specs.Vertices.{marks_of};
ghost use Rattle.label_pairing.specs.Pairs.{mark_at};
ghost use Rattle.label_pairing.specs.Scaling.{IsScalable};
ghost use Rattle.label_pairing.specs.declared.scaling.ScaleStop.TheVariants as stops;
ghost use Rattle.enummixed.specs.Used.{occurs, is_set, used_points, scaled_used, scaling_in};

use answers::Memory;
use basis_enum::Vertex;
use frac128::Frac;
use label_pairing::{ScaleStop, scale};
use std::alloc::Global;

/// The places of pairs on each side.
pub(crate) fn sides(alloc: Global, pairs: &[(u32, u32)]) -> Result<(Vec<u32>, Vec<u32>), Memory>
    ensures { IfOk result (λ sides. (sides.0.items ≡ map (λ pair. pair.0) pairs.now)
        × (sides.1.items ≡ map (λ pair. pair.1) pairs.now)) }
{
    let firsts = pairs.iter().map(|pair| pair.0).collect(alloc)?;
    let seconds = pairs.iter().map(|pair| pair.1).collect(alloc)?;
    Ok((firsts, seconds))
}

/// Which of so many places are among these.
pub(crate) fn used(alloc: Global, places: &[u32], count: usize) -> Result<Vec<bool>, Memory>
    requires { All (λ place. place < count) places.now }
    ensures { IfOk result (λ used. used.items ≡ map (occurs places.now) (range_with_len 0 count)) }
{
    let mut used = vec![in alloc; false; count]?;
    for place in places {
        used[*place as usize] = true;
    }
    Ok(used)
}

/// The scaled points of the vertices that are used, each at its place; at the other places an empty
/// list.
///
/// # Errors
///
/// `Range` exactly where a step does not fit, with the first step of the first used vertex of which
/// one does not; `Memory` where memory ran out.
pub(crate) fn scaled_points(
    alloc: Global,
    vertices: &[Vertex],
    used: &[bool],
) -> Result<Vec<Vec<Frac>>, ScaleStop>
    requires used { length used.now ≡ length vertices.now }
    requires scalable { (i : ℕ) → i < length vertices.now
        → IsScalable (mark_at (marks_of vertices.now) i).point }
    ensures fit { Gives stops.Memory
        (scaling_in (used_points (marks_of vertices.now) (is_set used.now)))
        (map_ok result (λ points. tt)) }
    ensures scaled { IfOk result (λ points. map (λ v. v.items) points.items
        ≡ scaled_used (marks_of vertices.now) (is_set used.now)) }
{
    let mut points = Vec::with_capacity(alloc, vertices.len())?;
    for i in 0..vertices.len() {
        if used[i] {
            points.push(scale(alloc, &vertices[i])?)?;
        } else {
            points.push(Vec::new(alloc))?;
        }
    }
    Ok(points)
}
