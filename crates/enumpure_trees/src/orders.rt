// The players' strategies in the order of their lines.
ghost use Rattle.std.specs.Prelude.{◌≡◌, ◌<◌, ◌^◌, length, map, IfOk, OnOk};
ghost use Rattle.std.specs.Cmp.Lexicographic.{slice_cmp};
ghost use Rattle.std.specs.List.Sorted.{IsPermutation, IsSorted};
ghost use Rattle.std.specs.Ordering.{nat_cmp};
ghost use Rattle.reduced_form.specs.ReducedForm.{IsReducedForm};
ghost use Rattle.enumpure_trees.specs.Orders.{completed_list};
ghost use Rattle.enumpure_trees.specs.StrategyOrders.{AreToldApart, first_numbered, IsSortedOrder, AreSortedOrders};

use answers::Memory;
use game_core::{Tree, trees_are_game_trees};
use reduced_form::Reduced;
use std::alloc::Global;
use std::cmp::Ordering;

// How two strategies' lists compare, completed by first actions.
fn compare_completed(one: &[u32], other: &[u32]) -> Ordering
    ensures { result ≡ slice_cmp nat_cmp (completed_list one.now) (completed_list other.now) }
{
    let one = one.iter().map(|choice| choice.saturating_sub(1));
    one.cmp(other.iter().map(|choice| choice.saturating_sub(1)))
}

// The strategies with their numbers.
fn numbered<'a>(alloc: Global, strategies: &'a [Vec<u32>]) -> Result<Vec<(u32, &'a [u32])>, Memory>
    requires few { length strategies.now < 2 ^ 32 }
    ensures { IfOk result (λ numbered. map (λ p. (p.0, p.1.now)) numbered.items
        ≡ first_numbered (map (λ v. v.items) strategies.now) (length strategies.now)) }
{
    let mut numbered = Vec::with_capacity(alloc, strategies.len())?;
    for number in 0..strategies.len() {
        numbered.push((number as u32, strategies[number].as_slice()))?;
    }
    Ok(numbered)
}

// Sorts strategies by their completed lists.
fn sort_completed(numbered: &mut Vec<(u32, &[u32])>) -> Result<(), Memory>
    ensures same { IsPermutation numbered.old.items numbered.new.items }
    ensures sorted { OnOk result
        (IsSorted (λ a b. slice_cmp nat_cmp (completed_list a.1.now)
        (completed_list b.1.now)) numbered.new.items) }
{
    numbered.sort_by(|one, other| compare_completed(one.1, other.1))?;
    Ok(())
}

// The numbers of a player's strategies in the order of their completed lists.
fn order_of(alloc: Global, strategies: &[Vec<u32>]) -> Result<Vec<u32>, Memory>
    requires few { length strategies.now < 2 ^ 32 }
    requires told { AreToldApart (map (λ v. v.items) strategies.now) }
    ensures { IfOk result (λ order. IsSortedOrder (map (λ v. v.items) strategies.now) order.items) }
{
    let mut sorted = numbered(alloc, strategies)?;
    sort_completed(&mut sorted)?;
    let mut order = Vec::with_capacity(alloc, sorted.len())?;
    for strategy in &sorted {
        order.push(strategy.0)?;
    }
    Ok(order)
}

/// For each player the numbers of the strategies in the order of their lines.
pub(crate) fn orders_of_all(
    alloc: Global,
    tree: &Tree,
    reduced: &Reduced,
) -> Result<Vec<Vec<u32>>, Memory>
    requires form { IsReducedForm tree.now reduced.now }
    ensures { IfOk result
        (λ orders. AreSortedOrders reduced.now.choices (map (λ v. v.items) orders.items)) }
{
    trees_are_game_trees();
    let mut orders = Vec::with_capacity(alloc, tree.players().len())?;
    for player in 0..reduced.table().players().len() {
        orders.push(order_of(alloc, &reduced.choices().lists()[player])?)?;
    }
    Ok(orders)
}
