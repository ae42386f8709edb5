// The profiles at which each player plays a best reply.
ghost use Rattle.std.specs.Prelude.{◌≡◌, ℕ, ◌+◌, ◌*◌, ◌^◌, ◌<◌, IsTrue, IfOk, EachIndex, length};
ghost use Rattle.game_theory.specs.Profiles.{Game, profile_count, stride as stride_of};
ghost use Rattle.game_core.specs.Table.{game_of, strategy_counts};
ghost use Rattle.enumpure.specs.Replies.{HasProfile, IsGreatestInLine, IsColumnOf, KeepsBestInLine, KeepsBestReplies, AreMutualBestReplies, column_pays, plays_best};

use answers::Memory;
use frac128::Frac;
use game_core::{Table, profile_count};
use std::alloc::Global;

/// What profiles pay one player, by their numbers: every `step`-th of these numbers from `offset`
/// on.
#[derive(Clone, Copy, Debug)]
pub struct Column<'a> {
    /// The numbers.
    pub numbers: &'a [Frac],
    /// The index of what profile 0 pays.
    pub offset: usize,
    /// How far the next profile's index is from a profile's.
    pub step: usize,
}

impl<'a> Column<'a> {
    // What a profile pays.
    fn pays(self, profile: usize) -> Frac
        requires { HasProfile self profile }
        ensures { result ≡ column_pays self.entry profile }
    {
        self.numbers[self.offset + self.step * profile]
    }
}

// The best payoff among a player's strategies against what the others play in a profile, `first`,
// in which the player plays strategy 0. The stride leads to the profile with the player's next
// strategy.
fn best_payoff(column: Column, stride: usize, strategies: usize, first: usize) -> Frac
    requires some { 0 < strategies }
    requires numbers { (s : ℕ) → s < strategies → first + stride * s < 2 ^ 64 }
    requires profiles { (s : ℕ) → s < strategies → HasProfile column (first + stride * s) }
    ensures { IsGreatestInLine (column_pays column.entry) first stride strategies result }
{
    let mut best = column.pays(first);
    for strategy in 1..strategies {
        let other = column.pays(first + stride * strategy);
        if best.is_less(other) {
            best = other;
        }
    }
    best
}

// Keeps of these profiles those whose payoff reaches the best.
fn keep_best(
    all_best: &mut [bool],
    column: Column,
    stride: usize,
    strategies: usize,
    first: usize,
    best: Frac,
)
    requires stride { 0 < stride }
    requires numbers { (s : ℕ) → s < strategies → first + stride * s < length all_best.old }
    requires profiles { (s : ℕ) → s < strategies → HasProfile column (first + stride * s) }
    ensures in_line { KeepsBestInLine (column_pays column.entry) first stride strategies best
        all_best.old all_best.new }
{
    for strategy in 0..strategies {
        let profile = first + stride * strategy;
        if column.pays(profile).is_less(best) {
            all_best[profile] = false;
        }
    }
}

/// Leaves out the profiles at which one player has a strategy with a greater payoff. `column` has
/// what they pay that player, who has so many strategies, and `stride` leads to the number of the
/// profile with the player's next strategy.
pub fn keep_best_replies(all_best: &mut [bool], column: Column, stride: usize, strategies: usize)
    requires { (game : Game) × (i : ℕ)
        × IsColumnOf game i column (length all_best.old) stride strategies }
    ensures { (game : Game) (i : ℕ)
        → IsColumnOf game i column.entry (length all_best.old) stride strategies
        → KeepsBestReplies game i all_best.old all_best.new }
{
    for first in 0..all_best.len() {
        if first / stride % strategies == 0 {
            let best = best_payoff(column, stride, strategies, first);
            keep_best(all_best, column, stride, strategies, first, best);
        }
    }
}

// Leaves out the profiles at which the player, whose stride this is, has a strategy with a greater
// payoff.
fn keep_best_of_player(all_best: &mut [bool], table: &Table, player: usize, stride: usize)
    requires player { player < length table.now.players }
    requires stride { stride ≡ stride_of (strategy_counts table.now) player }
    requires best_replies { length all_best.old ≡ profile_count (strategy_counts table.now) }
    ensures { KeepsBestReplies (game_of table.now) player all_best.old all_best.new }
{
    let column = Column {
        numbers: table.payoffs(),
        offset: player,
        step: table.players().len(),
    };
    keep_best_replies(all_best, column, stride, table.strategy_count(player));
}

// Leaves out the profiles at which some player has a strategy with a greater payoff.
fn keep_mutual(all_best: &mut [bool], table: &Table)
    requires best_replies { length all_best.old ≡ profile_count (strategy_counts table.now) }
    requires all { EachIndex all_best.old (λ k. IsTrue (plays_best all_best.old k)) }
    ensures { AreMutualBestReplies (game_of table.now) all_best.new }
{
    let mut stride = 1;
    for player in 0..table.players().len() {
        keep_best_of_player(all_best, table, player, stride);
        stride *= table.strategy_count(player);
    }
}

/// For each profile, by its number, whether each player plays a best reply.
///
/// # Errors
///
/// Memory ran out.
pub fn mutual_best_replies(alloc: Global, table: &Table) -> Result<Vec<bool>, Memory>
    ensures { IfOk result
        (λ replies. AreMutualBestReplies (game_of table.now) replies.items) }
{
    let counts = table.strategy_counts(alloc)?;
    let mut all_best = vec![in alloc; true; profile_count(&counts)]?;
    keep_mutual(&mut all_best, table);
    Ok(all_best)
}
