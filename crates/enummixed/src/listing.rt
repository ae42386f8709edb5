// The text of the extreme equilibria of a table, by its pairs or by those of the kept strategies.
ghost use Rattle.std.specs.Prelude.{◌≤◌, Ok, map};
ghost use Rattle.answers.specs.Answers.{Gives, map_ok};
ghost use Rattle.game_theory.specs.Profiles.{Game};
ghost use Rattle.game_core.specs.Table.{game_of};
ghost use Rattle.enumpure.specs.Stops.{within_text_limit};
ghost use Rattle.enumpure.specs.declared.listing.ListStop.TheVariants as list_stops;
ghost use Rattle.kept_strategies.specs.Kept.{IsKeptForm};
ghost use Rattle.enummixed.specs.ExtremeText.{IsExtremeEquilibriaText, extreme_pairs as pairs_in, extreme_text, kept_text};
ghost use Rattle.enummixed.specs.Order.{IsTextInOrder};
ghost use Rattle.enummixed.specs.Pairs.{pairs_of, AreScaled};
ghost use Rattle.enummixed.specs.declared.stop.MixedStop.TheVariants as stops;

use crate::extreme::{ExtremePairs, extreme_pairs};
use crate::order::sort_pairs;
use crate::spread::spread_points;
use crate::stop::MixedStop;
use crate::writing::write_lines;
use enumpure::ListStop;
use frac128::Frac;
use game_core::Table;
use kept_strategies::Kept;
use outside::Gate;
use std::alloc::Global;
use std::marker::Sync;
use std::thread::Threads;

// The lines of pairs in the order of their points, each with the entries of the wide points at its
// places.
fn text_in_order(
    alloc: Global,
    pairs: Vec<(u32, u32)>,
    firsts: &[Vec<Frac>],
    seconds: &[Vec<Frac>],
    wide_firsts: &[Vec<Frac>],
    wide_seconds: &[Vec<Frac>],
) -> Result<Vec<u8>, ListStop>
    ensures { Gives list_stops.Memory (within_text_limit (IsTextInOrder pairs.items
        (map (λ v. v.items) firsts.now) (map (λ v. v.items) seconds.now)
        (map (λ v. v.items) wide_firsts.now) (map (λ v. v.items) wide_seconds.now)))
        (map_ok result (λ text. text.items)) }
{
    let mut pairs = pairs;
    sort_pairs(alloc, &mut pairs, firsts, seconds)?;
    write_lines(alloc, &pairs, wide_firsts, wide_seconds)
}

// The lines of the pairs, in order.
fn text(alloc: Global, extreme: ExtremePairs) -> Result<Vec<u8>, ListStop>
    requires { AreScaled extreme }
    ensures { (game : Game) → pairs_in game (Ok (pairs_of extreme))
        → Gives list_stops.Memory (within_text_limit (IsExtremeEquilibriaText game))
        (map_ok result (λ text. text.items)) }
{
    let pairs = extreme.pairs;
    let firsts = extreme.firsts.as_slice();
    let seconds = extreme.seconds.as_slice();
    text_in_order(alloc, pairs, firsts, seconds, firsts, seconds)
}

// The lines of the pairs of the kept strategies, in order, with 0 at the other strategies.
fn spread_text(
    alloc: Global,
    extreme: ExtremePairs,
    table: &Table,
    kept: &Kept,
) -> Result<Vec<u8>, ListStop>
    requires kept { IsKeptForm table.now kept.now }
    requires scaled { AreScaled extreme }
    ensures { pairs_in (game_of kept.now.table) (Ok (pairs_of extreme))
        → Gives list_stops.Memory (within_text_limit (IsExtremeEquilibriaText (game_of table.now)))
        (map_ok result (λ text. text.items)) }
{
    let pairs = extreme.pairs;
    let firsts = extreme.firsts.as_slice();
    let seconds = extreme.seconds.as_slice();
    let wide_firsts = spread_points(alloc, firsts, kept.first(), table.strategies(0).len())?;
    let wide_seconds = spread_points(alloc, seconds, kept.second(), table.strategies(1).len())?;
    text_in_order(alloc, pairs, firsts, seconds, &wide_firsts, &wide_seconds)
}

/// The lines of the extreme equilibria of a table of two players: each equilibrium in which neither
/// player's probabilities are the midpoint of two others that make equilibria with those of the
/// other player, once, in descending order of the lines' entries. So many workers enumerate the
/// vertices, and the answer is the same for any number of them.
///
/// # Errors
///
/// Those of [`extreme_pairs`], and then `TooLarge` exactly where the lines have more than
/// 67,108,864 bytes; `Memory` where memory ran out.
pub fn list_extreme_equilibria<R: Threads + Sync, G: Gate>(
    rt: &R,
    alloc: Global,
    table: &Table,
    workers: u32,
    gate: &G,
) -> Result<Vec<u8>, MixedStop>
    requires { (1 ≤ workers) × (workers ≤ 64) }
    ensures { Gives stops.Memory (extreme_text (game_of table.now))
        (map_ok result (λ text. text.items)) }
{
    let extreme = extreme_pairs(rt, alloc, table, workers, gate)?;
    Ok(text(alloc, extreme)?)
}

/// The same lines, found by the vertices of the table over the kept strategies: an equilibrium
/// gives every other strategy the probability 0.
///
/// # Errors
///
/// Those of [`extreme_pairs`] at the table over the kept strategies, and then `TooLarge` exactly
/// where the lines have more than 67,108,864 bytes; `Memory` where memory ran out.
pub fn list_equilibria_of_kept<R: Threads + Sync, G: Gate>(
    rt: &R,
    alloc: Global,
    table: &Table,
    kept: &Kept,
    workers: u32,
    gate: &G,
) -> Result<Vec<u8>, MixedStop>
    requires kept { IsKeptForm table.now kept.now }
    requires workers { (1 ≤ workers) × (workers ≤ 64) }
    ensures { Gives stops.Memory (kept_text (game_of table.now) (game_of kept.now.table))
        (map_ok result (λ text. text.items)) }
{
    let extreme = extreme_pairs(rt, alloc, kept.table(), workers, gate)?;
    Ok(spread_text(alloc, extreme, table, kept)?)
}
