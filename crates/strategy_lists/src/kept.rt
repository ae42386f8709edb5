// The decisions that a count has to go over.
ghost use Rattle.std.specs.Prelude.{◌≡◌, ◌<◌, ◌^◌, Bool, List, All, length, slice_index, IfOk, IfSome};
ghost use Rattle.strategy_lists.specs.Reduced.{AreLinked};
ghost use Rattle.strategy_lists.specs.LeftOut.{all_ends, marked, kept_below, renumbered, AreEnough, AreShared};

use crate::decision::{Decision, Edge};
use answers::Memory;
use std::alloc::Global;

// For each set whether it has two decisions.
pub(crate) fn shared_sets(
    alloc: Global,
    decisions: &[Decision],
    sets: usize,
) -> Result<Vec<bool>, Memory>
    requires { All (λ d. d.place < sets) decisions.now }
    ensures { IfOk result (λ shared. AreShared decisions.now sets shared.items) }
{
    let mut seen = vec![in alloc; false; sets]?;
    let mut shared = vec![in alloc; false; sets]?;
    for decision in decisions {
        let place = decision.place as usize;
        shared[place] = shared[place] || seen[place];
        seen[place] = true;
    }
    Ok(shared)
}

// Marks the decision of an edge.
fn mark(kept: &mut Vec<bool>, edge: Option<Edge>)
    requires { IfSome edge (λ s. s.decision < length kept.old.items) }
    ensures { kept.new.items ≡ marked kept.old.items edge }
{
    if let Some(edge) = edge {
        kept[edge.decision as usize] = true;
    }
}

// Which decisions are kept: all but those of sets of one action with no other decision, after which
// none is kept.
fn kept(
    alloc: Global,
    decisions: &[Decision],
    actions: &[u32],
    shared: &[bool],
) -> Result<Vec<bool>, Memory>
    requires linked { AreLinked decisions.now actions.now }
    requires shared { AreShared decisions.now (length actions.now) shared.now }
    ensures { IfOk result (λ kept. AreEnough decisions.now actions.now kept.items) }
{
    let mut kept = vec![in alloc; false; decisions.len()]?;
    let mut left = decisions.len();
    while left > 0 {
        left -= 1;
        let place = decisions[left].place as usize;
        if kept[left] || actions[place] > 1 || shared[place] {
            kept[left] = true;
            mark(&mut kept, decisions[left].before);
        }
    }
    Ok(kept)
}

// A decision by the new numbers.
fn renumbered(decision: Decision, numbers: &[u32]) -> Decision
    requires { IfSome decision.before (λ s. s.decision < length numbers.now) }
    ensures { (kept : List Bool)
        → IfSome decision.before (λ s. slice_index numbers.now s.decision
        ≡ kept_below kept s.decision) → result ≡ renumbered kept decision }
{
    let before = match decision.before {
        Some(edge) => Some(Edge {
            decision: numbers[edge.decision as usize],
            ..edge
        }),
        None => None,
    };
    Decision { before, ..decision }
}

/// The decisions that a count has to go over, which are fewer and have as many reduced strategies.
pub(crate) fn kept_decisions(
    alloc: Global,
    decisions: &[Decision],
    actions: &[u32],
    shared: &[bool],
) -> Result<Vec<Decision>, Memory>
    requires linked { AreLinked decisions.now actions.now }
    requires shared { AreShared decisions.now (length actions.now) shared.now }
    requires few { length decisions.now < 2 ^ 32 }
    ensures linked { IfOk result (λ list. AreLinked list.items actions.now) }
    ensures as_many { IfOk result (λ list. length (all_ends list.items actions.now)
        ≡ length (all_ends decisions.now actions.now)) }
{
    let kept = kept(alloc, decisions, actions, shared)?;
    let mut numbers = Vec::with_capacity(alloc, decisions.len())?;
    let mut list = Vec::new(alloc);
    for number in 0..decisions.len() {
        numbers.push(list.len() as u32)?;
        if kept[number] {
            list.push(renumbered(decisions[number], &numbers))?;
        }
    }
    Ok(list)
}
