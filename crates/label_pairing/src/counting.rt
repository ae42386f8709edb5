// How many partners vertices have.
ghost use Rattle.std.specs.Prelude.{◌≡◌, ◌<◌, ◌≤◌, ◌^◌, ℕ, get_or, length, map, sum, IfOk};
ghost use Rattle.label_pairing.specs.Matches.{partner_count, AreUnions, HasBitsOf};

use crate::candidates::Candidates;
use crate::matching::{BLOCK, block_count, completes};
use answers::Memory;
use basis_enum::Vertex;
use rayon::prelude::*;
use std::alloc::Global;
use std::thread::Threads;

// The fewest pairs whose comparison is worth a thread.
const PAIRS_PER_THREAD: usize = 4_194_304;

// A word with all bits of these words.
fn union(words: &[u64]) -> u64
    ensures { (i : ℕ) → i < length words.now → HasBitsOf result (get_or words.now i 0) }
{
    let mut union = 0;
    for word in words {
        union |= *word;
    }
    union
}

// For each block of words one with all their bits.
fn unions(alloc: Global, words: &[u64]) -> Result<Vec<u64>, Memory>
    ensures { IfOk result (λ v. AreUnions words.now v.items) }
{
    let blocks = words.len() / BLOCK;
    let mut unions = Vec::with_capacity(alloc, blocks)?;
    for block in 0..blocks {
        let at = BLOCK * block;
        unions.push(union(&words[at..at + BLOCK]))?;
    }
    Ok(unions)
}

// How many masks of a block complete a mask. They are compared only where the mask and the union of
// the block's low words together have all bits.
fn count_in_block(mask: [u64; 2], all: [u64; 2], union: u64, low: &[u64], high: &[u64]) -> usize
    requires low { length low.now ≡ 8 }
    requires high { length high.now ≡ 8 }
    requires union { (i : ℕ) → i < 8 → HasBitsOf union (get_or low.now i 0) }
    ensures count { result ≡ partner_count mask all low.now high.now }
    ensures few { result ≤ 8 }
{
    let together = mask[0] | union;
    if together | all[0] != together {
        return 0;
    }
    block_count(mask, all, low, high)
}

// How many masks, whose words these are, complete a mask: place by place.
fn place_count(mask: [u64; 2], all: [u64; 2], low: &[u64], high: &[u64]) -> usize
    requires { length high.now ≡ length low.now }
    ensures count { result ≡ partner_count mask all low.now high.now }
    ensures few { result ≤ length low.now }
{
    let mut count = 0;
    for i in 0..low.len() {
        if completes(mask, all, low[i], high[i]) {
            count += 1;
        }
    }
    count
}

// How many candidates, the unions of whose low words are given, complete a mask: block by block,
// and the rest place by place.
fn partner_count(mask: [u64; 2], candidates: &Candidates, unions: &[u64]) -> usize
    requires { AreUnions candidates.now.low.now unions.now }
    ensures { let c = candidates.now in result ≡ partner_count mask c.all c.low.now c.high.now }
{
    let all = candidates.all;
    let low = candidates.low;
    let high = candidates.high;
    let blocks = low.len() / BLOCK;
    let mut count = 0;
    for block in 0..blocks {
        let at = BLOCK * block;
        let end = at + BLOCK;
        count += count_in_block(mask, all, unions[block], &low[at..end], &high[at..end]);
    }
    let rest = BLOCK * blocks;
    count + place_count(mask, all, &low[rest..], &high[rest..])
}

/// How many partners each vertex has: candidates that together with the vertex's mask have exactly
/// all bits. Many vertices are shared among threads.
pub(crate) fn partner_counts<R: Threads + Sync>(
    rt: &R,
    alloc: Global,
    first: &[Vertex],
    candidates: &Candidates,
) -> Result<Vec<usize>, Memory>
    ensures { let c = candidates.now in IfOk result (λ counts. counts.items
        ≡ map (λ vertex. partner_count vertex.mask c.all c.low.now c.high.now) first.now) }
{
    let unions = unions(alloc, candidates.low)?;
    let unions = unions.as_slice();
    let counts = first
        .par_iter()
        .with_min_len(PAIRS_PER_THREAD / candidates.low.len().max(1))
        .map(
            |vertex: &Vertex| -> usize
                requires { AreUnions candidates.now.low.now unions.now }
                ensures { let c = candidates.entry.now in
                    result ≡ partner_count vertex.now.mask c.all c.low.now c.high.now }
            { partner_count(vertex.mask, candidates, unions) },
        )
        .collect(rt, alloc)?;
    Ok(counts)
}

/// How many pairs there are: the partners of all vertices together.
pub(crate) fn pair_count(counts: &[usize]) -> usize
    requires { sum counts.now < 2 ^ 64 }
    ensures { result ≡ sum counts.now }
{
    counts.iter().sum()
}
