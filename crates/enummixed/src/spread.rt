// Points over the kept strategies of a player, over all strategies.
ghost use Rattle.std.specs.Prelude.{◌≡◌, ◌<◌, All, IfOk, length, map};
ghost use Rattle.std.specs.List.Sorted.{IsStrictlyIncreasing};
ghost use Rattle.extreme_equilibria.specs.KeptTable.{IsSpreadPoint};
ghost use Rattle.enummixed.specs.Spread.{AreSpreadPoints};

use answers::Memory;
use frac128::Frac;
use std::alloc::Global;

// The entries of a point at these places among so many, and 0 at the others.
fn spread(alloc: Global, point: &[Frac], places: &[u32], size: usize) -> Result<Vec<Frac>, Memory>
    requires ascending { IsStrictlyIncreasing places.now }
    requires within { All (λ place. place < size) places.now }
    requires entries { length point.now ≡ length places.now }
    ensures { IfOk result (λ wide. IsSpreadPoint size places.now point.now wide.items) }
{
    let mut wide = vec![in alloc; Frac::zero(); size]?;
    for k in 0..places.len() {
        wide[places[k] as usize] = point[k];
    }
    Ok(wide)
}

/// The points over the kept strategies of a player, which stand at these places among so many: each
/// point with one entry for each place is spread, with 0 at the other places, and another point is
/// left empty.
pub(crate) fn spread_points(
    alloc: Global,
    points: &[Vec<Frac>],
    places: &[u32],
    size: usize,
) -> Result<Vec<Vec<Frac>>, Memory>
    requires ascending { IsStrictlyIncreasing places.now }
    requires within { All (λ place. place < size) places.now }
    ensures { IfOk result (λ wide. AreSpreadPoints size places.now
        (map (λ v. v.items) points.now) (map (λ v. v.items) wide.items)) }
{
    let mut wide = Vec::with_capacity(alloc, points.len())?;
    for i in 0..points.len() {
        if points[i].len() == places.len() {
            wide.push(spread(alloc, &points[i], places, size)?)?;
        } else {
            wide.push(Vec::new(alloc))?;
        }
    }
    Ok(wide)
}
