// A table for each profile of the players besides the row player and the column player.
ghost use Rattle.std.specs.Prelude.{◌≡◌, ◌<◌, ◌++◌, length, OnOk, All};
ghost use Rattle.std.specs.Fmt.{decimal};
ghost use Rattle.std.specs.List.{flat_map};
ghost use Rattle.std.specs.Result.{IsErrOf};
ghost use Rattle.game_theory.specs.Profiles.{IsProfile};
ghost use Rattle.game_core.specs.Table.{strategy_counts};
ghost use Rattle.game_core.specs.Limits.{most_text};
ghost use Rattle.convert_tables.specs.declared.marks.Mark.TheVariants.{TableEnd};
ghost use Rattle.convert_tables.specs.Marks.{mark_text};
ghost use Rattle.convert_tables.specs.Names.{name_text};
ghost use Rattle.convert_tables.specs.Layouts.{others_counts, player_name, strategy_name, strategy_count, sgame_start, table_start, column_text, columns_text, chosen_text, later_chosen_text, heading, table_text, tables_text};

use crate::cells::{Axes, push_rows};
use crate::marks::{Mark, Style, mark_text};
use crate::names::{push_marked, push_name};
use crate::stops::LayoutStop;
use answers::Memory;
use game_core::{Name, Table, profile_count, set_profile};
use std::alloc::Global;

// Adds a player's name.
fn push_player(text: &mut Vec<u8>, style: Style, table: &Table, player: usize) -> Result<(), Memory>
    requires { player < length table.now.players }
    ensures { OnOk result (text.new.items
        ≡ text.old.items ++ name_text style (player_name table.now player)) }
{
    push_name(text, style, table.players()[player].bytes())
}

// Adds a strategy's name.
fn push_strategy(
    text: &mut Vec<u8>,
    style: Style,
    table: &Table,
    player: usize,
    strategy: usize,
) -> Result<(), Memory>
    requires player { player < length table.now.players }
    requires strategy { strategy < strategy_count table.now player }
    ensures { OnOk result (text.new.items
        ≡ text.old.items ++ name_text style (strategy_name table.now player strategy)) }
{
    push_name(text, style, table.strategies(player)[strategy].bytes())
}

// Adds a player and the strategy that is chosen.
fn push_chosen(
    text: &mut Vec<u8>,
    axes: &Axes,
    profile: &[u32],
    player: usize,
) -> Result<(), Memory>
    requires profile { IsProfile (strategy_counts axes.now.table.now) profile.now }
    requires player { player < length axes.now.table.now.players }
    ensures { OnOk result (text.new.items ≡ text.old.items
        ++ chosen_text axes.now.style axes.now.table.now profile.now player) }
{
    push_player(text, axes.style, axes.table, player)?;
    text.push(b'=')?;
    let strategy = profile[player] as usize;
    push_strategy(text, axes.style, axes.table, player, strategy)
}

// Adds some players and the strategies that are chosen, each after a comma and a space.
fn push_later_chosen(
    text: &mut Vec<u8>,
    axes: &Axes,
    profile: &[u32],
    players: &[usize],
) -> Result<(), Memory>
    requires profile { IsProfile (strategy_counts axes.now.table.now) profile.now }
    requires players { All (λ i. i < length axes.now.table.now.players) players.now }
    ensures { OnOk result (text.new.items ≡ text.old.items
        ++ flat_map (later_chosen_text axes.now.style axes.now.table.now profile.now) players.now) }
{
    for player in players {
        text.extend_from_slice(b", ")?;
        push_chosen(text, axes, profile, *player)?;
    }
    Ok(())
}

// Adds the heading with the profile of the others, where there are any.
fn push_heading(text: &mut Vec<u8>, axes: &Axes, profile: &[u32]) -> Result<(), Memory>
    requires { IsProfile (strategy_counts axes.now.table.now) profile.now }
    ensures { OnOk result (text.new.items ≡ text.old.items
        ++ heading axes.now.style axes.now.table.now profile.now axes.now.others.now) }
{
    let [first, rest @ ..] = axes.others else {
        return Ok(());
    };
    text.extend_from_slice(mark_text(axes.style, Mark::HeadingStart))?;
    push_chosen(text, axes, profile, *first)?;
    push_later_chosen(text, axes, profile, rest)?;
    text.extend_from_slice(mark_text(axes.style, Mark::HeadingEnd))?;
    Ok(())
}

// Adds a number in decimal.
fn push_number(alloc: Global, text: &mut Vec<u8>, number: usize) -> Result<(), Memory>
    ensures { OnOk result (text.new.items ≡ text.old.items ++ decimal number) }
{
    let digits = format!(in alloc; "{number}")?;
    text.extend_from_slice(digits.as_bytes())?;
    Ok(())
}

// Adds the start of a game of sgame: how many rows and columns it has, and whose they are.
fn push_sgame_start(
    alloc: Global,
    text: &mut Vec<u8>,
    table: &Table,
    row: usize,
    column: usize,
) -> Result<(), Memory>
    requires row { row < length table.now.players }
    requires column { column < length table.now.players }
    ensures { OnOk result (text.new.items
        ≡ text.old.items ++ sgame_start table.now row column) }
{
    text.extend_from_slice(b"\\begin{game}{")?;
    push_number(alloc, text, table.strategy_count(row))?;
    text.extend_from_slice(b"}{")?;
    push_number(alloc, text, table.strategy_count(column))?;
    text.extend_from_slice(b"}[")?;
    push_player(text, Style::Sgame, table, row)?;
    text.extend_from_slice(b"][")?;
    push_player(text, Style::Sgame, table, column)?;
    text.extend_from_slice(b"]\n")?;
    Ok(())
}

// Adds the start of a table.
fn push_start(alloc: Global, text: &mut Vec<u8>, axes: &Axes) -> Result<(), Memory>
    ensures { OnOk result (text.new.items ≡ text.old.items
        ++ table_start axes.now.style axes.now.table.now axes.now.row axes.now.column) }
{
    match axes.style {
        Style::Html => Ok(text.extend_from_slice(b"<table>\n<tr><th></th>")?),
        Style::Sgame => push_sgame_start(alloc, text, axes.table, axes.row, axes.column),
    }
}

// Adds the names of the columns, each between its marks.
fn push_column_names(text: &mut Vec<u8>, style: Style, names: &[Name]) -> Result<(), Memory>
    ensures { OnOk result (text.new.items
        ≡ text.old.items ++ flat_map (column_text style) names.now) }
{
    for name in names {
        push_marked(
            text,
            style,
            Mark::ColumnStart,
            name.bytes(),
            Mark::ColumnEnd,
        )?;
    }
    Ok(())
}

// Adds the start of a table and the names of its columns.
fn push_columns(alloc: Global, text: &mut Vec<u8>, axes: &Axes) -> Result<(), Memory>
    ensures { OnOk result (text.new.items ≡ text.old.items
        ++ columns_text axes.now.style axes.now.table.now axes.now.row axes.now.column) }
{
    push_start(alloc, text, axes)?;
    push_column_names(text, axes.style, axes.table.strategies(axes.column))?;
    text.extend_from_slice(mark_text(axes.style, Mark::ColumnsEnd))?;
    Ok(())
}

// Adds the table in which the others play a profile.
fn push_table(
    alloc: Global,
    text: &mut Vec<u8>,
    axes: &Axes,
    profile: &[u32],
) -> Result<(), LayoutStop>
    requires profile { IsProfile (others_counts axes.now.table.now axes.now.row axes.now.column)
        profile.now }
    ensures table { OnOk result (text.new.items ≡ text.old.items
        ++ table_text axes.now.style axes.now.table.now axes.now.row axes.now.column profile.now) }
    ensures long { IsErrOf result LayoutStop.TooLong → most_text < length (text.old.items
        ++ table_text axes.now.style axes.now.table.now axes.now.row axes.now.column profile.now) }
{
    push_heading(text, axes, profile)?;
    push_columns(alloc, text, axes)?;
    push_rows(alloc, text, axes, profile)?;
    push_table_end(text, axes.style)?;
    Ok(())
}

// Adds the end of a table.
fn push_table_end(text: &mut Vec<u8>, style: Style) -> Result<(), Memory>
    ensures { OnOk result (text.new.items ≡ text.old.items ++ mark_text style TableEnd) }
{
    text.extend_from_slice(mark_text(style, Mark::TableEnd))?;
    Ok(())
}

/// Adds a table for each profile of the others, the first of whom changes fastest, and stops after
/// the first row at which the text has too many bytes. `counts` are the players' numbers of
/// strategies, with 1 in the place of the row player and the column player. Writes over `profile`,
/// which has a place for each player.
pub(crate) fn push_tables(
    alloc: Global,
    text: &mut Vec<u8>,
    axes: &Axes,
    counts: &[usize],
    profile: &mut [u32],
) -> Result<(), LayoutStop>
    requires players { length profile.old ≡ length counts.now }
    requires counts { counts.now
        ≡ others_counts axes.now.table.now axes.now.row axes.now.column }
    ensures tables { OnOk result (text.new.items ≡ text.old.items
        ++ tables_text axes.now.style axes.now.table.now axes.now.row axes.now.column) }
    ensures long { IsErrOf result LayoutStop.TooLong → most_text < length (text.old.items
        ++ tables_text axes.now.style axes.now.table.now axes.now.row axes.now.column) }
{
    for number in 0..profile_count(counts) {
        set_profile(profile, counts, number);
        push_table(alloc, text, axes, profile)?;
    }
    Ok(())
}
