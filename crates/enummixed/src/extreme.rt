// The pairs of vertices that make the extreme equilibria of a table.
ghost use Rattle.std.specs.Prelude.{◌≡◌, ◌<◌, ◌≤◌, ℕ, All, length, map, IfOk};
ghost use Rattle.answers.specs.Answers.{Gives, refused_by, map_ok};
ghost use Rattle.game_core.specs.Table.{game_of};
ghost use Rattle.basis_enum.specs.Systems.{IsEnumerable};
ghost use Rattle.basis_enum.specs.Enumeration.{vertices_in};
ghost use Rattle.basis_enum.specs.Levels.{most_bases};
ghost use Rattle.basis_enum.specs.Vertices.{marks_of, vertex_list};
ghost use Rattle.label_pairing.specs.Pairs.{mark_at};
ghost use Rattle.label_pairing.specs.Scaling.{IsScalable};
ghost use Rattle.enummixed.specs.BothVertices.{both_lists_of, both_vertices_in};
ghost use Rattle.enummixed.specs.ExtremeText.{extreme_pairs};
ghost use Rattle.enummixed.specs.Pairs.{pairs_of, AreScaled};
ghost use Rattle.enummixed.specs.Told.{enumeration_stop, scale_stop};
ghost use Rattle.enummixed.specs.Used.{is_set, occurs, used_points, scaled_used, scaling_in};
ghost use Rattle.basis_enum.specs.declared.stop.EnumerationStop.TheVariants as enum_stops;
ghost use Rattle.enummixed.specs.declared.stop.MixedStop.TheVariants as stops;

use crate::points::{scaled_points, sides, used};
use crate::stop::MixedStop;
use basis_enum::{EnumerationStop, Vertex, Vertices, all_labels, enumerate_with};
use claims::{FEWEST_SHARED, Helpers, make_room};
use frac128::Frac;
use game_core::Table;
use label_pairing::pairs;
use lex_tableau::{PivotCount, System};
use outside::Gate;
use reply_polytope::polytopes;
use std::alloc::Global;
use std::marker::{Brand, Sync};
use std::sync::ledger::{Blank, Ledger};
use std::thread::{Threads, join};

/// The vertices of both polytopes of a table, and the pairs of them that make its extreme
/// equilibria.
#[derive(Debug, Drop)]
pub struct ExtremePairs {
    /// The vertices of the first polytope.
    pub first: Vertices,
    /// The vertices of the second polytope.
    pub second: Vertices,
    /// The places of the vertices that together have all labels, in ascending order.
    pub pairs: Vec<(u32, u32)>,
    /// The first player's probabilities at each vertex of the first polytope that stands in a pair;
    /// at other places an empty list.
    pub firsts: Vec<Vec<Frac>>,
    /// The second player's probabilities likewise.
    pub seconds: Vec<Vec<Frac>>,
}

// The fewest workers by whom both polytopes are enumerated at once.
const SIDE_BY_SIDE: u32 = 4;

// How many pieces are enough for a helper where both polytopes are enumerated at once: a thread
// that is started for fewer saves little.
const ENOUGH_SIDE_BY_SIDE: usize = 64;

// The vertices of a system. The pivots are counted on a blank, and the count is not used.
fn enumerated<R: Threads + Sync, G: Gate, L: Ledger>(
    rt: &R,
    alloc: Global,
    system: &System,
    helpers: &Helpers,
    gate: &G,
    blank: Blank,
) -> Result<Vertices, EnumerationStop>
    requires enumerable { IsEnumerable system.now }
    requires blank { (L.parts ≡ blank.parts) × (L.name ≡ blank.name) × (0 < blank.parts) }
    ensures vertices { Gives enum_stops.Memory (vertices_in system.now)
        (map_ok result vertex_list) }
    ensures few { IfOk result (λ v. length v.list.items ≤ most_bases) }
{
    let mut pivots = PivotCount::<L>::new(blank);
    enumerate_with(rt, alloc, system, helpers, gate, &mut pivots)
}

// The vertices of a polytope, by its system.
fn vertices_of<R: Threads + Sync, G: Gate>(
    rt: &R,
    alloc: Global,
    polytope: u32,
    system: &System,
    helpers: &Helpers,
    gate: &G,
) -> Result<Vertices, MixedStop>
    requires enumerable { IsEnumerable system.now }
    ensures vertices { Gives stops.Memory
        (refused_by (enumeration_stop polytope) (vertices_in system.now))
        (map_ok result vertex_list) }
    ensures few { IfOk result (λ v. length v.list.items ≤ most_bases) }
{
    enumerated::<R, G, Brand>(rt, alloc, system, helpers, gate, Blank::new(1)).map_err(
        |stop| MixedStop::of_enumeration(polytope, stop),
    )
}

// The same by a worker who is a helper afterwards.
fn vertices_beside<R: Threads + Sync, G: Gate>(
    rt: &R,
    alloc: Global,
    polytope: u32,
    system: &System,
    helpers: &Helpers,
    gate: &G,
) -> Result<Vertices, MixedStop>
    requires enumerable { IsEnumerable system.now }
    ensures vertices { Gives stops.Memory
        (refused_by (enumeration_stop polytope) (vertices_in system.now))
        (map_ok result vertex_list) }
    ensures few { IfOk result (λ v. length v.list.items ≤ most_bases) }
{
    make_room(alloc);
    let vertices = vertices_of(rt, alloc, polytope, system, helpers, gate);
    helpers.add(1);
    vertices
}

// The vertices of the first polytope, and then of the second.
fn one_by_one<R: Threads + Sync, G: Gate>(
    rt: &R,
    alloc: Global,
    one: &System,
    two: &System,
    helpers: &Helpers,
    gate: &G,
) -> Result<(Vertices, Vertices), MixedStop>
    requires one { IsEnumerable one.now }
    requires two { IsEnumerable two.now }
    ensures vertices { Gives stops.Memory (both_vertices_in one.now two.now)
        (map_ok result both_lists_of) }
    ensures few { IfOk result (λ both.
        (length both.0.list.items ≤ most_bases) × (length both.1.list.items ≤ most_bases)) }
{
    let first = vertices_of(rt, alloc, 0, one, helpers, gate)?;
    let second = vertices_of(rt, alloc, 1, two, helpers, gate)?;
    Ok((first, second))
}

// The vertices of both polytopes at once, each by a worker who takes helpers where these are idle.
fn side_by_side<R: Threads + Sync, G: Gate>(
    rt: &R,
    alloc: Global,
    one: &System,
    two: &System,
    helpers: &Helpers,
    gate: &G,
) -> Result<(Vertices, Vertices), MixedStop>
    requires one { IsEnumerable one.now }
    requires two { IsEnumerable two.now }
    ensures vertices { Gives stops.Memory (both_vertices_in one.now two.now)
        (map_ok result both_lists_of) }
    ensures few { IfOk result (λ both.
        (length both.0.list.items ≤ most_bases) × (length both.1.list.items ≤ most_bases)) }
{
    make_room(alloc);
    let (first, second) = join(
        rt,
        || -> Result<Vertices, MixedStop>
            requires one { IsEnumerable one.now }
            ensures vertices { Gives stops.Memory
                (refused_by (enumeration_stop 0) (vertices_in one.entry.now))
                (map_ok result vertex_list) }
            ensures few { IfOk result (λ v. length v.list.items ≤ most_bases) }
        { vertices_beside(rt, alloc, 0, one, helpers, gate) },
        || -> Result<Vertices, MixedStop>
            requires two { IsEnumerable two.now }
            ensures vertices { Gives stops.Memory
                (refused_by (enumeration_stop 1) (vertices_in two.entry.now))
                (map_ok result vertex_list) }
            ensures few { IfOk result (λ v. length v.list.items ≤ most_bases) }
        { vertices_beside(rt, alloc, 1, two, helpers, gate) },
    );
    Ok((first?, second?))
}

// The vertices of both polytopes.
fn both_vertices<R: Threads + Sync, G: Gate>(
    rt: &R,
    alloc: Global,
    one: &System,
    two: &System,
    workers: u32,
    gate: &G,
) -> Result<(Vertices, Vertices), MixedStop>
    requires one { IsEnumerable one.now }
    requires two { IsEnumerable two.now }
    requires workers { 1 ≤ workers }
    ensures vertices { Gives stops.Memory (both_vertices_in one.now two.now)
        (map_ok result both_lists_of) }
    ensures few { IfOk result (λ both.
        (length both.0.list.items ≤ most_bases) × (length both.1.list.items ≤ most_bases)) }
{
    if workers < SIDE_BY_SIDE {
        let helpers = Helpers::new(workers - 1, FEWEST_SHARED);
        one_by_one(rt, alloc, one, two, &helpers, gate)
    } else {
        let helpers = Helpers::new(workers - 2, ENOUGH_SIDE_BY_SIDE);
        side_by_side(rt, alloc, one, two, &helpers, gate)
    }
}

// The scaled points of a polytope's vertices that are used.
fn scaled(
    alloc: Global,
    polytope: u32,
    vertices: &[Vertex],
    used: &[bool],
) -> Result<Vec<Vec<Frac>>, MixedStop>
    requires used { length used.now ≡ length vertices.now }
    requires scalable { (i : ℕ) → i < length vertices.now
        → IsScalable (mark_at (marks_of vertices.now) i).point }
    ensures fit { Gives stops.Memory
        (refused_by (scale_stop polytope)
        (scaling_in (used_points (marks_of vertices.now) (is_set used.now))))
        (map_ok result (λ points. tt)) }
    ensures scaled { IfOk result (λ points. map (λ v. v.items) points.items
        ≡ scaled_used (marks_of vertices.now) (is_set used.now)) }
{
    scaled_points(alloc, vertices, used).map_err(|stop| MixedStop::of_scaling(polytope, stop))
}

// The scaled points of a polytope's vertices at these places.
fn scaled_at(
    alloc: Global,
    polytope: u32,
    vertices: &[Vertex],
    places: &[u32],
) -> Result<Vec<Vec<Frac>>, MixedStop>
    requires within { All (λ place. place < length vertices.now) places.now }
    requires scalable { (i : ℕ) → i < length vertices.now
        → IsScalable (mark_at (marks_of vertices.now) i).point }
    ensures fit { Gives stops.Memory
        (refused_by (scale_stop polytope)
        (scaling_in (used_points (marks_of vertices.now) (occurs places.now))))
        (map_ok result (λ points. tt)) }
    ensures scaled { IfOk result (λ points. map (λ v. v.items) points.items
        ≡ scaled_used (marks_of vertices.now) (occurs places.now)) }
{
    let used = used(alloc, places, vertices.len())?;
    scaled(alloc, polytope, vertices, used.as_slice())
}

/// The vertices of both polytopes of a table, and the pairs of them that together have all labels,
/// with the points of these vertices scaled. The pairs are as many as the extreme equilibria. So
/// many workers enumerate the vertices, four or more of them those of both polytopes at once, and
/// the answer is the same for any number of them.
///
/// # Errors
///
/// The first reason in the order in which the parts are computed: `NotTwoPlayers`, `TooLarge` (of
/// strategies) or `Shift` where there are no two systems; `Start`, `Range` or `TooLarge` (of bases)
/// of the first polytope, and then of the second; `TooLarge` where there are more than 1,048,576
/// pairs; `Scale` of the first polytope, and then of the second. `Memory` where memory ran out.
pub fn extreme_pairs<R: Threads + Sync, G: Gate>(
    rt: &R,
    alloc: Global,
    table: &Table,
    workers: u32,
    gate: &G,
) -> Result<ExtremePairs, MixedStop>
    requires { (1 ≤ workers) × (workers ≤ 64) }
    ensures answer { Gives stops.Memory (extreme_pairs (game_of table.now))
        (map_ok result pairs_of) }
    ensures scaled { IfOk result AreScaled }
{
    let (one, two) = polytopes(alloc, table)?;
    let (first, second) = both_vertices(rt, alloc, &one, &two, workers, gate)?;
    let labels = all_labels(one.basics().len() + one.nonbasics().len());
    let pairs = pairs(rt, alloc, &first.list, &second.list, labels)?;
    let (first_places, second_places) = sides(alloc, &pairs)?;
    let firsts = scaled_at(alloc, 0, &first.list, &first_places)?;
    let seconds = scaled_at(alloc, 1, &second.list, &second_places)?;
    Ok(ExtremePairs {
        first,
        second,
        pairs,
        firsts,
        seconds,
    })
}
