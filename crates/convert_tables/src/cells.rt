// A table, row by row.
ghost use Rattle.std.specs.Prelude.{◌≡◌, ◌≢◌, ◌+◌, ◌*◌, ◌<◌, ◌++◌, ℕ, length, OnOk, All};
ghost use Rattle.std.specs.List.{flat_map, range_with_len};
ghost use Rattle.std.specs.Result.{IsErrOf};
ghost use Rattle.game_theory.specs.Profiles.{IsProfile, profile_count, stride};
ghost use Rattle.game_core.specs.Table.{IsTable, strategy_counts};
ghost use Rattle.game_core.specs.Limits.{most_text};
ghost use Rattle.convert_tables.specs.Layouts.{other_players, others_counts, payoff_text, later_payoff_text, cell_text, row_end, row_text, rows_text, strategy_count};

use crate::marks::{Mark, Style, mark_text};
use crate::names::push_marked;
use crate::stops::LayoutStop;
use answers::Memory;
use game_core::{MOST_TEXT, Table};
use ne_printer::push_fraction;
use std::alloc::Global;

/// A table, and the players whose strategies are its rows and its columns, counted from 0.
#[derive(Drop)]
pub struct Axes<'a> {
    /// How the table is written.
    pub style: Style,
    /// The table.
    pub table: &'a Table,
    /// The player whose strategies are the rows.
    pub row: usize,
    /// The player whose strategies are the columns.
    pub column: usize,
    /// The other players, in order.
    pub others: &'a [usize],
    /// How much a profile's number grows from a row to the next.
    pub row_stride: usize,
    /// How much it grows from a column to the next.
    pub column_stride: usize,
    ghost valid: { IsTable table.now },
    ghost row_in: { row < length table.now.players },
    ghost column_in: { column < length table.now.players },
    ghost apart: { row ≢ column },
    ghost others_are: { others.now ≡ other_players (length table.now.players) row column },
    ghost row_stride_is: { row_stride ≡ stride (strategy_counts table.now) row },
    ghost column_stride_is: { column_stride ≡ stride (strategy_counts table.now) column },
}

// Adds a player's payoff at the profile with a number.
fn push_payoff(
    alloc: Global,
    text: &mut Vec<u8>,
    table: &Table,
    number: usize,
    player: usize,
) -> Result<(), Memory>
    requires number { number < profile_count (strategy_counts table.now) }
    requires player { player < length table.now.players }
    ensures { OnOk result (text.new.items
        ≡ text.old.items ++ payoff_text table.now number player) }
{
    push_fraction(alloc, text, table.payoff_at(number, player))
}

// Adds the payoffs of some players, each after a comma.
fn push_later_payoffs(
    alloc: Global,
    text: &mut Vec<u8>,
    table: &Table,
    number: usize,
    players: &[usize],
) -> Result<(), Memory>
    requires number { number < profile_count (strategy_counts table.now) }
    requires players { All (λ i. i < length table.now.players) players.now }
    ensures { OnOk result (text.new.items
        ≡ text.old.items ++ flat_map (later_payoff_text table.now number) players.now) }
{
    for player in players {
        text.push(b',')?;
        push_payoff(alloc, text, table, number, *player)?;
    }
    Ok(())
}

// Adds the cell of the profile with a number.
fn push_cell(alloc: Global, text: &mut Vec<u8>, axes: &Axes, number: usize) -> Result<(), Memory>
    requires { number < profile_count (strategy_counts axes.now.table.now) }
    ensures { OnOk result (text.new.items ≡ text.old.items
        ++ cell_text axes.now.style axes.now.table.now axes.now.row axes.now.column number) }
{
    let table = axes.table;
    text.extend_from_slice(mark_text(axes.style, Mark::CellStart))?;
    push_payoff(alloc, text, table, number, axes.row)?;
    push_later_payoffs(alloc, text, table, number, &[axes.column])?;
    push_later_payoffs(alloc, text, table, number, axes.others)?;
    text.extend_from_slice(mark_text(axes.style, Mark::CellEnd))?;
    Ok(())
}

// Adds the cells of a row, in which the profile of the first has this number.
fn push_cells(alloc: Global, text: &mut Vec<u8>, axes: &Axes, first: usize) -> Result<(), Memory>
    requires { (c : ℕ) → c < strategy_count axes.now.table.now axes.now.column
        → first + axes.now.column_stride * c < profile_count (strategy_counts axes.now.table.now) }
    ensures { OnOk result (text.new.items ≡ text.old.items
        ++ flat_map (λ c. cell_text axes.now.style axes.now.table.now axes.now.row axes.now.column
        (first + axes.now.column_stride * c))
        (range_with_len 0 (strategy_count axes.now.table.now axes.now.column))) }
{
    for column in 0..axes.table.strategy_count(axes.column) {
        push_cell(alloc, text, axes, first + axes.column_stride * column)?;
    }
    Ok(())
}

// What stands after the row of a strategy.
fn row_end(style: Style, rows: usize, strategy: usize) -> &'static [u8]
    requires { strategy < rows }
    ensures { result.now ≡ row_end style rows strategy }
{
    if strategy + 1 == rows {
        mark_text(style, Mark::LastRowEnd)
    } else {
        mark_text(style, Mark::RowEnd)
    }
}

// Adds the row of a strategy, where the others play a profile.
fn push_row(
    alloc: Global,
    text: &mut Vec<u8>,
    axes: &Axes,
    profile: &[u32],
    strategy: usize,
) -> Result<(), Memory>
    requires profile { IsProfile (others_counts axes.now.table.now axes.now.row axes.now.column)
        profile.now }
    requires strategy { strategy < strategy_count axes.now.table.now axes.now.row }
    ensures { OnOk result (text.new.items ≡ text.old.items
        ++ row_text axes.now.style axes.now.table.now axes.now.row axes.now.column profile.now
        strategy) }
{
    let names = axes.table.strategies(axes.row);
    let first = axes.table.profile_number(profile) + axes.row_stride * strategy;
    let name = names[strategy].bytes();
    push_marked(text, axes.style, Mark::RowStart, name, Mark::RowNameEnd)?;
    push_cells(alloc, text, axes, first)?;
    text.extend_from_slice(row_end(axes.style, names.len(), strategy))?;
    Ok(())
}

/// Adds the rows of the table in which the others play a profile, and stops after the first row at
/// which the text has too many bytes.
pub(crate) fn push_rows(
    alloc: Global,
    text: &mut Vec<u8>,
    axes: &Axes,
    profile: &[u32],
) -> Result<(), LayoutStop>
    requires profile { IsProfile (others_counts axes.now.table.now axes.now.row axes.now.column)
        profile.now }
    ensures rows { OnOk result (text.new.items ≡ text.old.items
        ++ rows_text axes.now.style axes.now.table.now axes.now.row axes.now.column profile.now) }
    ensures long { IsErrOf result LayoutStop.TooLong → most_text < length (text.old.items
        ++ rows_text axes.now.style axes.now.table.now axes.now.row axes.now.column profile.now) }
{
    for strategy in 0..axes.table.strategy_count(axes.row) {
        push_row(alloc, text, axes, profile, strategy)?;
        if text.len() > MOST_TEXT {
            return Err(LayoutStop::TooLong);
        }
    }
    Ok(())
}
