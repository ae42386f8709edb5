// The walk.
ghost use Rattle.std.specs.Prelude.{◌≡◌, ◌<◌, ◌+◌, ◌^◌, List, [], ℕ, length, map, min, replicate, slice_get, IfOk, MatchOption};
ghost use Rattle.strategy_lists.specs.declared.decision.Decision.{Decision};
ghost use Rattle.strategy_lists.specs.Ends.{ends, is_led_to, IsAt, IsStart, ComesTo, later_ends, ends_from};
ghost use Rattle.strategy_lists.specs.Reduced.{AreLinked, AreReducedBy};

use crate::decision::Decision;
use answers::Memory;
use std::alloc::Global;

// A walk on its way through the decisions.
#[derive(Drop)]
struct Walk<'a> {
    decisions: &'a [Decision],
    actions: &'a [u32],
    // The action of each set, counted from 1, and 0 where it has none.
    choices: Vec<u32>,
    // Whether each decision so far is reached.
    reached: Vec<bool>,
    // The decisions that gave their set its action, in order.
    fixed: Vec<usize>,
}

impl<'a> Walk<'a> {
    // A walk before its first decision.
    fn new(alloc: Global, decisions: &'a [Decision], actions: &'a [u32]) -> Result<Walk<'a>, Memory>
        requires linked { AreLinked decisions.now actions.now }
        ensures { IfOk result (λ walk. IsStart decisions.now actions.now walk) }
    {
        Ok(Walk {
            decisions,
            actions,
            choices: vec![in alloc; 0; actions.len()]?,
            reached: vec![in alloc; false; decisions.len()]?,
            fixed: Vec::new(alloc),
        })
    }

    // Whether a decision is reached, where the walk is before it.
    fn is_reached(&self, number: usize) -> bool
        requires at { IsAt self.now number }
        requires within { number < length self.now.decisions.now }
        ensures { (d : Decision) → slice_get self.now.decisions.now number ≡ Some d
            → result ≡ is_led_to self.now.reached.items self.now.choices.items d.before }
    {
        match self.decisions[number].before {
            None => true,
            Some(edge) => {
                let choice = self.choices[edge.place as usize];
                self.reached[edge.decision as usize] && choice > 0 && choice - 1 == edge.action
            }
        }
    }

    // Goes over one decision, with the first action where its set has none yet.
    fn visit(&mut self, number: usize) -> Result<(), Memory>
        requires at { IsAt self.old number }
        requires within { number < length self.old.decisions.now }
        ensures { IfOk result (λ _. ComesTo self.old number self.new (number + 1)) }
    {
        let place = self.decisions[number].place as usize;
        let is_reached = self.is_reached(number);
        self.reached[number] = is_reached;
        if is_reached && self.choices[place] == 0 {
            self.choices[place] = 1;
            self.fixed.push(number)?;
        }
        Ok(())
    }

    // Goes on to the end over the decisions from a number on.
    fn forward(&mut self, from: usize) -> Result<(), Memory>
        requires { IsAt self.old from }
        ensures { IfOk result
            (λ _. ComesTo self.old from self.new (length self.old.decisions.now)) }
    {
        for number in from..self.decisions.len() {
            self.visit(number)?;
        }
        Ok(())
    }

    // Goes back to the last set that has a further action, and takes that. Answers the decision to
    // go on with.
    fn back(&mut self) -> Option<usize>
        requires { IsAt self.old (length self.old.decisions.now) }
        ensures { MatchOption result (later_ends self.old ≡ []) (λ next. IsAt self.new next
            × (ends_from self.new next ≡ later_ends self.old)) }
    {
        while let Some(last) = self.fixed.last() {
            let number = *last;
            let place = self.decisions[number].place as usize;
            if self.choices[place] < self.actions[place] {
                self.choices[place] += 1;
                return Some(number + 1);
            }
            self.choices[place] = 0;
            self.fixed.pop();
        }
        None
    }
}

// How many reduced strategies there are, but at most one more than `most`: counting stops there.
// The walk ends once for each of them. `actions` has the number of actions of each of the player's
// own sets in order.
pub(crate) fn count_ends(
    alloc: Global,
    decisions: &[Decision],
    actions: &[u32],
    most: usize,
) -> Result<usize, Memory>
    requires linked { AreLinked decisions.now actions.now }
    requires most { most + 1 < 2 ^ 64 }
    ensures lists { IfOk result (λ count. (lists : List (List ℕ))
        × AreReducedBy decisions.now actions.now lists × (count ≡ min (length lists) (most + 1))) }
    ensures ends { IfOk result (λ count. count
        ≡ min (length (ends actions.now decisions.now [] (replicate (length actions.now) 0)))
        (most + 1)) }
{
    let mut walk = Walk::new(alloc, decisions, actions)?;
    let mut count = 0;
    let mut from = Some(0);
    while let Some(number) = from {
        walk.forward(number)?;
        count += 1;
        if count > most {
            return Ok(count);
        }
        from = walk.back();
    }
    Ok(count)
}

/// All reduced strategies in order, as choice lists. `actions` has the number of actions of each of
/// the player's own sets in order.
///
/// # Errors
///
/// Memory ran out.
pub(crate) fn list_reduced(
    alloc: Global,
    decisions: &[Decision],
    actions: &[u32],
) -> Result<Vec<Vec<u32>>, Memory>
    requires linked { AreLinked decisions.now actions.now }
    ensures { IfOk result
        (λ lists. AreReducedBy decisions.now actions.now (map (λ v. v.items) lists.items)) }
{
    let mut walk = Walk::new(alloc, decisions, actions)?;
    let mut lists = Vec::new(alloc);
    let mut from = Some(0);
    while let Some(number) = from {
        walk.forward(number)?;
        lists.push(walk.choices.clone()?)?;
        from = walk.back();
    }
    lists.sort()?;
    Ok(lists)
}
