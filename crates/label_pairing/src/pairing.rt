// The pairs of vertices that together have all labels.
ghost use Rattle.std.specs.Prelude.{◌≡◌, ◌<◌, ◌++◌, ◌^◌, List, length, map, get_or, IfOk, OnOk};
ghost use Rattle.answers.specs.Answers.{Gives, map_ok};
ghost use Rattle.basis_enum.specs.Vertices.{marks_of};
ghost use Rattle.linear_systems.specs.Vertices.{MarkedPoint};
ghost use Rattle.label_pairing.specs.Matches.{AreWords, flagged_pairs, partner_count, partner_pairs};
ghost use Rattle.label_pairing.specs.Pairs.{all_pairs};
ghost use Rattle.label_pairing.specs.Stops.{pairs_in};
ghost use Rattle.label_pairing.specs.declared.pairing.PairStop.TheVariants as stops;

use crate::candidates::Candidates;
use crate::counting::{pair_count, partner_counts};
use crate::matching::matches;
use answers::Memory;
use basis_enum::Vertex;
use game_core::{TooLarge, What};
use std::alloc::Global;
use std::thread::Threads;

// The most pairs.
const MOST_PAIRS: u64 = 1_048_576;

/// Why the pairs were not listed.
#[derive(Clone, Copy, Debug, PartialEq, Eq)]
pub enum PairStop {
    /// There are more than 1,048,576 pairs.
    TooLarge(TooLarge),
    /// Memory ran out.
    Memory,
}

impl From<TooLarge> for PairStop {
    ghost use Rattle.std.specs.Prelude.{◌≡◌};
    ghost use Rattle.label_pairing.specs.declared.pairing.PairStop.TheVariants as stops;

    ghost from_gives = { λ limit e. e ≡ stops.TooLarge limit };

    fn from(limit: TooLarge) -> PairStop {
        PairStop::TooLarge(limit)
    }
}

impl From<Memory> for PairStop {
    ghost use Rattle.std.specs.Prelude.{◌≡◌};
    ghost use Rattle.label_pairing.specs.declared.pairing.PairStop.TheVariants as stops;

    ghost from_gives = { λ _ e. e ≡ stops.Memory };

    fn from(_memory: Memory) -> PairStop {
        PairStop::Memory
    }
}

// A word of each vertex's mask.
fn words(alloc: Global, vertices: &[Vertex], word: usize) -> Result<Vec<u64>, Memory>
    requires { word < 2 }
    ensures { IfOk result (λ words. words.items
        ≡ map (λ vertex. get_or vertex.mask word 0) vertices.now) }
{
    Ok(
        vertices
            .iter()
            .map(|vertex| vertex.mask[word])
            .collect(alloc)?,
    )
}

// Adds the pairs of place i with the places that are found.
fn push_found(pairs: &mut Vec<(u32, u32)>, i: u32, found: &[bool]) -> Result<(), Memory>
    requires { length found.now < 2 ^ 32 }
    ensures { OnOk result (pairs.new.items ≡ pairs.old.items ++ flagged_pairs i found.now) }
{
    for (j, is_found) in found.iter().enumerate() {
        if *is_found {
            pairs.push((i, j as u32))?;
        }
    }
    Ok(())
}

// Adds the pairs of place i, whose vertex has this mask and so many partners.
fn push_partners(
    pairs: &mut Vec<(u32, u32)>,
    i: u32,
    mask: [u64; 2],
    candidates: &Candidates,
    count: usize,
    found: &mut [bool],
) -> Result<(), Memory>
    requires few { length candidates.now.low.now < 2 ^ 32 }
    requires found { length found.old ≡ length candidates.now.low.now }
    requires count { let c = candidates.now in
        count ≡ partner_count mask c.all c.low.now c.high.now }
    ensures room { length found.new ≡ length candidates.now.low.now }
    ensures pairs { let c = candidates.now in OnOk result (pairs.new.items
        ≡ pairs.old.items ++ partner_pairs i mask c.all c.low.now c.high.now) }
{
    if count == 0 {
        return Ok(());
    }
    matches(mask, candidates.all, candidates.low, candidates.high, found);
    push_found(pairs, i, found)
}

// The pairs of vertices, which have so many partners among the candidates, in room for so many
// pairs.
fn collected(
    alloc: Global,
    first: &[Vertex],
    candidates: &Candidates,
    counts: &[usize],
    room: usize,
) -> Result<Vec<(u32, u32)>, Memory>
    requires few_first { length first.now < 2 ^ 32 }
    requires few_second { length candidates.now.low.now < 2 ^ 32 }
    requires counts { let c = candidates.now in counts.now
        ≡ map (λ vertex. partner_count vertex.mask c.all c.low.now c.high.now) first.now }
    ensures { let c = candidates.now in IfOk result (λ pairs. (second : List MarkedPoint)
        → AreWords second c.low.now c.high.now
        → pairs.items ≡ all_pairs c.all (marks_of first.now) second) }
{
    let mut found = vec![in alloc; false; candidates.low.len()]?;
    let mut pairs = Vec::with_capacity(alloc, room)?;
    for i in 0..first.len() {
        push_partners(
            &mut pairs,
            i as u32,
            first[i].mask,
            candidates,
            counts[i],
            &mut found,
        )?;
    }
    Ok(pairs)
}

/// The pairs of vertices whose masks together have all these bits, by their places in the two
/// lists, in ascending order. Places are numbered from 0. Each vertex's partners are counted first,
/// in several threads where there are many vertices, and only vertices that have some are looked at
/// again.
///
/// # Errors
///
/// `TooLarge` exactly where there are more than 1,048,576 pairs, which are counted before any is
/// listed; `Memory` where memory ran out.
pub fn pairs<R: Threads + Sync>(
    rt: &R,
    alloc: Global,
    first: &[Vertex],
    second: &[Vertex],
    all: [u64; 2],
) -> Result<Vec<(u32, u32)>, PairStop>
    requires few_first { length first.now < 2 ^ 32 }
    requires few_second { length second.now < 2 ^ 32 }
    ensures { Gives stops.Memory (pairs_in all (marks_of first.now) (marks_of second.now))
        (map_ok result (λ pairs. pairs.items)) }
{
    let low = words(alloc, second, 0)?;
    let high = words(alloc, second, 1)?;
    let candidates = Candidates {
        all,
        low: &low,
        high: &high,
    };
    let counts = partner_counts(rt, alloc, first, &candidates)?;
    let count = pair_count(&counts);
    TooLarge::within(What::Pairs, MOST_PAIRS, count as u64)?;
    Ok(collected(alloc, first, &candidates, &counts, count)?)
}
