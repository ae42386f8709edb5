// Counting reduced strategies.
ghost use Rattle.std.specs.Prelude.{◌≡◌, ◌<◌, ◌+◌, ◌*◌, ◌^◌, List, ℕ, length, map, min, replicate, slice_index, slice_set, IfOk, []};
ghost use Rattle.std.specs.List.{sum};
ghost use Rattle.strategy_lists.specs.Ends.{ends};
ghost use Rattle.strategy_lists.specs.Reduced.{AreApart, AreLinked, AreReducedBy};

use crate::decision::Decision;
use crate::kept::{kept_decisions, shared_sets};
use crate::walk::count_ends;
use answers::Memory;
use std::alloc::Global;

// The product of two numbers, but at most the limit.
fn product(left: usize, right: usize, limit: usize) -> usize
    ensures { result ≡ min (left * right) limit }
{
    left.saturating_mul(right).min(limit)
}

// The sum of numbers, but at most the limit.
fn sum(numbers: &[usize], limit: usize) -> usize
    ensures { result ≡ min (sum numbers.now) limit }
{
    let mut sum: usize = 0;
    for number in numbers {
        sum = sum.saturating_add(*number).min(limit);
    }
    sum
}

// For each decision a 1 for each action of its set.
fn ones(alloc: Global, decisions: &[Decision], actions: &[u32]) -> Result<Vec<Vec<usize>>, Memory>
    requires linked { AreLinked decisions.now actions.now }
    ensures { IfOk result (λ lists. map (λ v. v.items) lists.items
        ≡ map (λ d. replicate (slice_index actions.now d.place) 1) decisions.now) }
{
    let mut lists = Vec::with_capacity(alloc, decisions.len())?;
    for decision in decisions {
        lists.push(vec![in alloc; 1; actions[decision.place as usize] as usize]?)?;
    }
    Ok(lists)
}

// Multiplies the number of an action by the ways after it, where the set has this action.
fn multiply(products: &mut Vec<usize>, action: usize, ways: usize, limit: usize)
    ensures { products.new.items
        ≡ slice_set products.old.items action
        (min (slice_index products.old.items action * ways) limit) }
{
    if action < products.len() {
        products[action] = product(products[action], ways, limit);
    }
}

// How many ends the walk has, but at most the limit, where no set has two decisions.
fn count_apart(
    alloc: Global,
    decisions: &[Decision],
    actions: &[u32],
    limit: usize,
) -> Result<usize, Memory>
    requires linked { AreLinked decisions.now actions.now }
    requires apart { AreApart decisions.now }
    requires limit { 0 < limit }
    ensures { IfOk result (λ count. count
        ≡ min (length (ends actions.now decisions.now []
        (replicate (length actions.now) 0))) limit) }
{
    let mut following = ones(alloc, decisions, actions)?;
    let mut first = 1;
    let mut left = decisions.len();
    while left > 0 {
        left -= 1;
        let ways = sum(&following[left], limit);
        match decisions[left].before {
            None => first = product(first, ways, limit),
            Some(edge) => {
                let products = &mut following[edge.decision as usize];
                multiply(products, edge.action as usize, ways, limit);
            }
        }
    }
    Ok(first)
}

/// How many reduced strategies there are, but at most one more than `most`: counting stops there.
/// `actions` has the number of actions of each of the player's own sets in order.
///
/// # Errors
///
/// Memory ran out.
pub(crate) fn count_reduced(
    alloc: Global,
    decisions: &[Decision],
    actions: &[u32],
    most: usize,
) -> Result<usize, Memory>
    requires linked { AreLinked decisions.now actions.now }
    requires most { most + 1 < 2 ^ 64 }
    ensures { IfOk result (λ count. (lists : List (List ℕ))
        × AreReducedBy decisions.now actions.now lists × (count ≡ min (length lists) (most + 1))) }
{
    let shared = shared_sets(alloc, decisions, actions.len())?;
    if !shared.contains(&true) {
        count_apart(alloc, decisions, actions, most + 1)
    } else if decisions.len() > u32::MAX as usize {
        count_ends(alloc, decisions, actions, most)
    } else {
        let kept = kept_decisions(alloc, decisions, actions, &shared)?;
        count_ends(alloc, &kept, actions, most)
    }
}
