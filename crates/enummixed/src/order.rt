// The order of pairs by their lines: points are compared once on each side, and pairs by the ranks
// of their points.
ghost use Rattle.std.specs.Prelude.{◌≡◌, ◌≤◌, ◌<◌, ◌+◌, ◌^◌, [], false, map, get_or, IfOk, IsPermutation, IsSortedBy, OnOk};
ghost use Rattle.std.specs.Ordering.{is_lt, nat_cmp};
ghost use Rattle.std.specs.Cmp.Lexicographic.{slice_cmp};
ghost use Rattle.enummixed.specs.Order.{greater_first, pair_order, ArePlacesInOrder, AreRanks};

use answers::Memory;
use frac128::Frac;
use std::alloc::Global;
use std::cmp::Ordering;

// The point at a place, and no entries where there is none.
fn point(points: &[Vec<Frac>], place: usize) -> &[Frac]
    ensures { result.now ≡ get_or (map (λ v. v.items) points.now) place [] }
{
    match points.get(place) {
        Some(point) => point.as_slice(),
        None => &[],
    }
}

// The order of two points: at the first entry that differs the greater comes first.
fn compare_points(left: &[Frac], right: &[Frac]) -> Ordering
    ensures { result ≡ slice_cmp greater_first left.now right.now }
{
    let mut k = 0;
    while k < left.len() && k < right.len() {
        let order = right[k].cmp(left[k]);
        if order != Ordering::Equal {
            return order;
        }
        k += 1;
    }
    left.len().cmp(&right.len())
}

// The places of points, in the order of the points.
fn sorted_places(alloc: Global, points: &[Vec<Frac>]) -> Result<Vec<usize>, Memory>
    ensures { IfOk result (λ places.
        ArePlacesInOrder (map (λ v. v.items) points.now) places.items) }
{
    let mut places: Vec<usize> = (0..points.len()).collect(alloc)?;
    places.sort_unstable_by(
        |one: &usize, other: &usize| -> Ordering
            ensures { result ≡ slice_cmp greater_first
                (get_or (map (λ v. v.items) points.entry.now) one.now [])
                (get_or (map (λ v. v.items) points.entry.now) other.now []) }
        { compare_points(point(points, *one), point(points, *other)) },
    );
    Ok(places)
}

// The rank of a point that does not come before another, by the rank of that one.
fn next_rank(rank: usize, previous: &[Frac], point: &[Frac]) -> usize
    requires small { rank < 2 ^ 63 }
    requires order { is_lt (slice_cmp greater_first point.now previous.now) ≡ false }
    ensures compare { nat_cmp rank result ≡ slice_cmp greater_first previous.now point.now }
    ensures from { rank ≤ result }
    ensures up_to { result ≤ rank + 1 }
{
    if compare_points(previous, point).is_eq() {
        rank
    } else {
        rank + 1
    }
}

// The ranks of points: how many different points with entries come before each or are equal to it.
fn ranks(alloc: Global, points: &[Vec<Frac>]) -> Result<Vec<usize>, Memory>
    ensures { IfOk result (λ ranks. AreRanks (map (λ v. v.items) points.now) ranks.items) }
{
    let places = sorted_places(alloc, points)?;
    let mut ranks = vec![in alloc; 0; points.len()]?;
    let mut rank = 0;
    let mut previous: &[Frac] = &[];
    for place in &places {
        let next = point(points, *place);
        rank = next_rank(rank, previous, next);
        ranks[*place] = rank;
        previous = next;
    }
    Ok(ranks)
}

// The rank at a place, and 0 where there is none.
fn rank(ranks: &[usize], place: u32) -> usize
    ensures { result ≡ get_or ranks.now place 0 }
{
    ranks.get(place as usize).copied().unwrap_or(0)
}

/// Sorts pairs of places by their lines: at the first entry that differs the greater comes first.
pub(crate) fn sort_pairs(
    alloc: Global,
    pairs: &mut [(u32, u32)],
    firsts: &[Vec<Frac>],
    seconds: &[Vec<Frac>],
) -> Result<(), Memory>
    ensures permutation { IsPermutation pairs.old pairs.new }
    ensures sorted { OnOk result (IsSortedBy (λ p q. is_lt
        (pair_order (map (λ v. v.items) firsts.now) (map (λ v. v.items) seconds.now) p q))
        pairs.new) }
{
    let first_ranks = ranks(alloc, firsts)?;
    let second_ranks = ranks(alloc, seconds)?;
    pairs.sort_unstable_by_key(|pair: &(u32, u32)| {
        (rank(&first_ranks, pair.0), rank(&second_ranks, pair.1))
    });
    Ok(())
}
