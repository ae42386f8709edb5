// The kept strategies of a table of two players, and the table over them.
ghost use Rattle.std.specs.Prelude.{◌≡◌, ◌+◌, ◌*◌, ◌<◌, ◌≤◌, ℕ, [], ◌∷◌, All, IfOk, length, map, get_or, slice_index, sum};
ghost use Rattle.answers.specs.Answered.{IsAnswered};
ghost use Rattle.answers.specs.Answers.{Gives, IsSingle};
ghost use Rattle.rational.specs.Sum.{entry_at};
ghost use Rattle.extreme_equilibria.specs.KeptTable.{AreKeptLists, kept_table};
ghost use Rattle.game_core.specs.Table.{GameTable, IsTable, game_of, strategy_counts};
ghost use Rattle.kept_strategies.specs.declared.kept_stop.KeptStop.TheVariants as stops;
ghost use Rattle.kept_strategies.specs.Kept.{IsKeptForm, kept_of, most_strategies};

use crate::elimination::{kept_strategies, payoff};
use crate::kept_stop::KeptStop;
use answers::Memory;
use frac128::Frac;
use game_core::{Name, Table, TooLarge, What, copied, copied_names};
use std::alloc::Global;
use std::marker::Model;

/// The most strategies of both players together.
const MOST_STRATEGIES: u64 = 512;

/// The strategies of two players that are kept where strictly dominated ones are removed, round by
/// round, and the table over them. Strategies are numbered from 0.
#[derive(Debug, Drop)]
pub struct Kept {
    first: Vec<u32>,
    second: Vec<u32>,
    table: Table,
}

impl Model for Kept {
    ghost use Rattle.kept_strategies.specs.Kept.{KeptForm, code_of_kept};

    ghost Value = { KeptForm };

    ghost coded = { code_of_kept };

    ghost view = { λ k. record {
      first = k.first.items;
      second = k.second.items;
      table = k.table;
    } };
}

impl Kept {
    ghost use Rattle.std.specs.Prelude.{◌≡◌};

    /// The first player's kept strategies, in ascending order.
    pub fn first(&self) -> &[u32]
        ensures { result.now ≡ self.now.first }
    {
        self.first.as_slice()
    }

    /// The second player's kept strategies, in ascending order.
    pub fn second(&self) -> &[u32]
        ensures { result.now ≡ self.now.second }
    {
        self.second.as_slice()
    }

    /// The table over the kept strategies.
    pub fn table(&self) -> &Table
        ensures { result.now ≡ self.now.table }
    {
        &self.table
    }
}

// The names at these places.
fn names_at(alloc: Global, names: &[Name], places: &[u32]) -> Result<Vec<Name>, Memory>
    requires { All (λ place. place < length names.now) places.now }
    ensures { IfOk result
        (λ kept. kept.items ≡ map (λ place. get_or names.now place []) places.now) }
{
    let mut kept = Vec::with_capacity(alloc, places.len())?;
    for place in places {
        kept.push(copied(alloc, &names[*place as usize])?)?;
    }
    Ok(kept)
}

// What the profiles of these strategies pay both players.
fn payoffs_at(
    alloc: Global,
    table: &Table,
    first: &[u32],
    second: &[u32],
) -> Result<Vec<Frac>, Memory>
    requires valid { IsTable table.now }
    requires two { length table.now.players ≡ 2 }
    requires first { All (λ s. s < slice_index (strategy_counts table.now) 0) first.now }
    requires second { All (λ t. t < slice_index (strategy_counts table.now) 1) second.now }
    requires few { length first.now + length second.now ≤ most_strategies }
    ensures so_many { IfOk result
        (λ payoffs. length payoffs.items ≡ length first.now * length second.now * 2) }
    ensures cells { IfOk result (λ payoffs. (i k : ℕ) → i < 2
        → k < length first.now * length second.now
        → entry_at payoffs.items (k * 2 + i)
        ≡ (kept_table (game_of table.now) (first.now ∷ second.now ∷ [])).pays i k) }
{
    let mut payoffs = Vec::with_capacity(alloc, first.len() * second.len() * 2)?;
    for column in second {
        for row in first {
            payoffs.push(payoff(table, 0, *row, *column))?;
            payoffs.push(payoff(table, 1, *column, *row))?;
        }
    }
    Ok(payoffs)
}

// The kept strategies with the table over them.
fn kept_form(
    alloc: Global,
    table: &Table,
    first: Vec<u32>,
    second: Vec<u32>,
) -> Result<Kept, Memory>
    requires valid { IsTable table.now }
    requires two { length table.now.players ≡ 2 }
    requires few { sum (strategy_counts table.now) ≤ most_strategies }
    requires kept { AreKeptLists (game_of table.now) (first.items ∷ second.items ∷ []) }
    ensures { IfOk result (IsKeptForm table.now) }
{
    let title = copied(alloc, table.title())?;
    let players = copied_names(alloc, table.players())?;
    let first_names = names_at(alloc, table.strategies(0), &first)?;
    let second_names = names_at(alloc, table.strategies(1), &second)?;
    let payoffs = payoffs_at(alloc, table, &first, &second)?;
    let mut strategies = Vec::with_capacity(alloc, 2)?;
    strategies.push(first_names)?;
    strategies.push(second_names)?;
    let table = Table::new(title, players, strategies, payoffs);
    Ok(Kept {
        first,
        second,
        table,
    })
}

/// The strategies of both players that are kept where strictly dominated ones are removed, round by
/// round, and the table over them. Payoffs are only compared.
///
/// # Errors
///
/// `NotTwoPlayers` exactly where there is another number of players, and `TooLarge` exactly where
/// two have more than 512 strategies together. `Memory` where memory ran out.
pub fn undominated(alloc: Global, table: &Table) -> Result<Kept, KeptStop>
    ensures { Gives stops.Memory (kept_of table.now) result }
{
    let players = table.players().len();
    if players != 2 {
        return Err(KeptStop::NotTwoPlayers {
            count: players as u32,
        });
    }
    let strategies = table.strategy_count(0) + table.strategy_count(1);
    TooLarge::within(What::Labels, MOST_STRATEGIES, strategies as u64)?;
    let (first, second) = kept_strategies(alloc, table)?;
    Ok(kept_form(alloc, table, first, second)?)
}

/// A table has one answer at most: the kept strategies of each player, or why they are not looked
/// for.
pub fn kept_forms_are_single()
    ensures { (table : GameTable) → IsSingle (kept_of table) }
{}

/// A table has an answer: the kept strategies of each player, or why they are not looked for.
pub fn kept_forms_are_answered()
    ensures { (table : GameTable) → IsTable table → IsAnswered (kept_of table) }
{}
