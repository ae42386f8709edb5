// Elimination of strictly dominated strategies, round by round. Players and strategies count from
// 0.
ghost use Rattle.std.specs.Prelude.{◌≡◌, ◌<◌, ◌≤◌, ◌⊎◌, ◌↔◌, ℕ, [], ◌∷◌, All, Contains, IfOk, IsTrue, MatchOption, length, slice_index, sum};
ghost use Rattle.std.specs.List.Sorted.{IsStrictlyIncreasing};
ghost use Rattle.lists.specs.Listed.{AreListed};
ghost use Rattle.extreme_equilibria.specs.Elimination.{IsDominated, AreKeptAfter};
ghost use Rattle.extreme_equilibria.specs.KeptTable.{AreKeptLists};
ghost use Rattle.extreme_equilibria.specs.TwoPlayers.{other, pays_against};
ghost use Rattle.game_core.specs.Table.{game_of, strategy_counts, IsTable};
ghost use Rattle.kept_strategies.specs.Kept.{most_strategies};
ghost use Rattle.kept_strategies.specs.Comparisons.{AreAhead, IsAheadAt, IsAheadBefore, IsFirstNotAhead};

use answers::Memory;
use frac128::Frac;
use game_core::Table;
use std::alloc::Global;

// What a player gets for a strategy against one of the other player.
pub(crate) fn payoff(table: &Table, player: u32, own: u32, against: u32) -> Frac
    requires valid { IsTable table.now }
    requires two { length table.now.players ≡ 2 }
    requires player { player < 2 }
    requires own { own < slice_index (strategy_counts table.now) player }
    requires against { against < slice_index (strategy_counts table.now) (other player) }
    ensures { result ≡ pays_against (game_of table.now) player own against }
{
    let rows = table.strategy_count(0);
    if player == 0 {
        table.payoff_at(own as usize + rows * against as usize, 0)
    } else {
        table.payoff_at(against as usize + rows * own as usize, 1)
    }
}

// The first of these strategies of the other player against which `by` pays no more than
// `strategy`, where it is known to pay more against those before `from`.
fn first_not_ahead(
    table: &Table,
    player: u32,
    others: &[u32],
    strategy: u32,
    by: u32,
    from: u32,
) -> Option<u32>
    requires valid { IsTable table.now }
    requires two { length table.now.players ≡ 2 }
    requires player { player < 2 }
    requires strategy { strategy < slice_index (strategy_counts table.now) player }
    requires by { by < slice_index (strategy_counts table.now) player }
    requires ascending { IsStrictlyIncreasing others.now }
    requires others { All (λ t. t < slice_index (strategy_counts table.now) (other player))
        others.now }
    requires known { IsAheadBefore (game_of table.now) player others.now strategy by from }
    ensures { MatchOption result
        ((t : ℕ) → Contains others.now t → IsAheadAt (game_of table.now) player strategy by t)
        (IsFirstNotAhead (game_of table.now) player others.now strategy by) }
{
    let start = others.partition_point(|against| *against < from);
    for against in &others[start..] {
        let less = payoff(table, player, strategy, *against);
        if !less.is_less(payoff(table, player, by, *against)) {
            return Some(*against);
        }
    }
    None
}

// Whether a strategy is strictly dominated among these. `ahead` has for each pair of the player's
// strategies, row by row, before which strategy of the other player the second is known to pay more
// than the first.
fn is_dominated(
    table: &Table,
    player: u32,
    own: &[u32],
    others: &[u32],
    strategy: u32,
    ahead: &mut [u32],
) -> bool
    requires valid { IsTable table.now }
    requires two { length table.now.players ≡ 2 }
    requires player { player < 2 }
    requires strategy { strategy < slice_index (strategy_counts table.now) player }
    requires own { All (λ s. s < slice_index (strategy_counts table.now) player) own.now }
    requires ascending { IsStrictlyIncreasing others.now }
    requires others { All (λ t. t < slice_index (strategy_counts table.now) (other player))
        others.now }
    requires few { slice_index (strategy_counts table.now) player ≤ most_strategies }
    requires ahead { AreAhead (game_of table.now) player others.now ahead.old }
    ensures dominated { IsTrue result ↔ IsDominated (game_of table.now) player (Contains own.now)
        (Contains others.now) strategy }
    ensures ahead { AreAhead (game_of table.now) player others.now ahead.new }
{
    let count = table.strategy_count(player as usize);
    for by in own {
        let pair = strategy as usize * count + *by as usize;
        match first_not_ahead(table, player, others, strategy, *by, ahead[pair]) {
            Some(against) => ahead[pair] = against,
            None => return true,
        }
    }
    false
}

// The strategies of a player that are not strictly dominated among these.
fn undominated_among(
    alloc: Global,
    table: &Table,
    player: u32,
    own: &[u32],
    others: &[u32],
    ahead: &mut [u32],
) -> Result<Vec<u32>, Memory>
    requires valid { IsTable table.now }
    requires two { length table.now.players ≡ 2 }
    requires player { player < 2 }
    requires own_ascending { IsStrictlyIncreasing own.now }
    requires own { All (λ s. s < slice_index (strategy_counts table.now) player) own.now }
    requires others_ascending { IsStrictlyIncreasing others.now }
    requires others { All (λ t. t < slice_index (strategy_counts table.now) (other player))
        others.now }
    requires few { slice_index (strategy_counts table.now) player ≤ most_strategies }
    requires ahead { AreAhead (game_of table.now) player others.now ahead.old }
    ensures listed { IfOk result (λ kept. AreListed
        (λ s. Contains own.now s × ¬ IsDominated (game_of table.now) player (Contains own.now)
        (Contains others.now) s) kept.items) }
    ensures all_or_fewer { IfOk result
        (λ kept. (kept.items ≡ own.now) ⊎ (length kept.items < length own.now)) }
    ensures ahead { AreAhead (game_of table.now) player others.now ahead.new }
{
    let mut kept = Vec::with_capacity(alloc, own.len())?;
    for strategy in own {
        if !is_dominated(table, player, own, others, *strategy, ahead) {
            kept.push(*strategy)?;
        }
    }
    Ok(kept)
}

// All strategies of a player.
fn all_strategies(alloc: Global, table: &Table, player: u32) -> Result<Vec<u32>, Memory>
    requires player { player < length table.now.players }
    requires few { slice_index (strategy_counts table.now) player ≤ most_strategies }
    ensures { IfOk result (λ all. AreKeptAfter (game_of table.now) 0 player all.items) }
{
    let count = table.strategy_count(player as usize);
    Ok((0..count as u32).collect(alloc)?)
}

/// Both players' kept strategies, in ascending order. In each round the removals of both players
/// are found before any is made.
pub(crate) fn kept_strategies(alloc: Global, table: &Table) -> Result<(Vec<u32>, Vec<u32>), Memory>
    requires valid { IsTable table.now }
    requires two { length table.now.players ≡ 2 }
    requires few { sum (strategy_counts table.now) ≤ most_strategies }
    ensures { IfOk result
        (λ kept. AreKeptLists (game_of table.now) (kept.0.items ∷ kept.1.items ∷ [])) }
{
    let rows = table.strategy_count(0);
    let columns = table.strategy_count(1);
    let mut first_pairs = vec![in alloc; 0; rows * rows]?;
    let mut second_pairs = vec![in alloc; 0; columns * columns]?;
    let first_ahead = first_pairs.as_mut_slice();
    let second_ahead = second_pairs.as_mut_slice();
    let mut first = all_strategies(alloc, table, 0)?;
    let mut second = all_strategies(alloc, table, 1)?;
    loop {
        let next_first = undominated_among(alloc, table, 0, &first, &second, first_ahead)?;
        let next_second = undominated_among(alloc, table, 1, &second, &first, second_ahead)?;
        if next_first.len() == first.len() && next_second.len() == second.len() {
            return Ok((first, second));
        }
        first = next_first;
        second = next_second;
    }
}
