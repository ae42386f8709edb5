// The layouts of a table.
ghost use Rattle.std.specs.Prelude.{◌≡◌, ◌≢◌, ◌-◌, ◌<◌, ◌≤◌, ◌++◌, ◌↔◌, IsTrue, ℕ, length, IfOk, OnOk};
ghost use Rattle.std.specs.Result.{IsErrOf};
ghost use Rattle.answers.specs.Answers.{Gives, IsSingle, map_ok};
ghost use Rattle.answers.specs.Answered.{IsAnswered};
ghost use Rattle.game_core.specs.Table.{GameTable};
ghost use Rattle.game_core.specs.Limits.{most_text};
ghost use Rattle.convert_tables.specs.Examples.{PrisonersDilemmaIsLaidOut};
ghost use Rattle.convert_tables.specs.Layouts.{other_players, title_text, layout};
ghost use Rattle.convert_tables.specs.declared.marks.Style.TheVariants.{Html};
ghost use Rattle.convert_tables.specs.Converted.{IsPlayer, laid_out, html_text, sgame_text};
ghost use Rattle.convert_tables.specs.declared.stops.ConvertStop.TheVariants as stops;

use crate::cells::Axes;
use crate::marks::Style;
use crate::names::push_name;
use crate::stops::{ConvertStop, LayoutStop};
use crate::tables::push_tables;
use answers::Memory;
use game_core::{MOST_TEXT, Table};
use std::alloc::Global;

// The players besides the row player and the column player, in order.
#[tactic(auto, using(crate::proofs::CellPlaceLemmas::others_grow))]
fn other_players(
    alloc: Global,
    players: usize,
    row: usize,
    column: usize,
) -> Result<Vec<usize>, Memory>
    ensures { IfOk result (λ others. others.items ≡ other_players players row column) }
{
    let mut others = Vec::new(alloc);
    for player in 0..players {
        if player != row && player != column {
            others.push(player)?;
        }
    }
    Ok(others)
}

fn zeros(alloc: Global, count: usize) -> Result<Vec<u32>, Memory>
    ensures { IfOk result (λ zeros. length zeros.items ≡ count) }
{
    Ok(vec![in alloc; 0; count]?)
}

// Adds the title, where a layout has one.
fn push_title(text: &mut Vec<u8>, style: Style, title: &[u8]) -> Result<(), Memory>
    ensures { OnOk result (text.new.items ≡ text.old.items ++ title_text style title.now) }
{
    match style {
        Style::Html => push_page_title(text, title),
        Style::Sgame => Ok(()),
    }
}

// Adds the title of a web page.
fn push_page_title(text: &mut Vec<u8>, title: &[u8]) -> Result<(), Memory>
    ensures { OnOk result (text.new.items ≡ text.old.items ++ title_text Html title.now) }
{
    text.extend_from_slice(b"<h1>")?;
    push_name(text, Style::Html, title)?;
    text.extend_from_slice(b"</h1>\n")?;
    Ok(())
}

// The layout of a table, where it is not too long.
fn write_layout(
    alloc: Global,
    style: Style,
    table: &Table,
    row: usize,
    column: usize,
) -> Result<Vec<u8>, LayoutStop>
    requires row { row < length table.now.players }
    requires column { column < length table.now.players }
    requires apart { row ≢ column }
    ensures layout { IfOk result (λ text. text.items ≡ layout style table.now row column) }
    ensures short { IfOk result (λ text. length text.items ≤ most_text) }
    ensures long { IsErrOf result LayoutStop.TooLong
        → most_text < length (layout style table.now row column) }
{
    let mut counts = table.strategy_counts(alloc)?;
    let others = other_players(alloc, table.players().len(), row, column)?;
    let mut profile = zeros(alloc, counts.len())?;
    let axes = Axes {
        style,
        table,
        row,
        column,
        others: &others,
        row_stride: table.stride(row),
        column_stride: table.stride(column),
    };
    counts[row] = 1;
    counts[column] = 1;
    let mut text = Vec::new(alloc);
    push_title(&mut text, style, table.title().bytes())?;
    push_tables(alloc, &mut text, &axes, &counts, &mut profile)?;
    if text.len() > MOST_TEXT {
        return Err(LayoutStop::TooLong);
    }
    Ok(text)
}

// Whether a number is a player's, counted from 1.
fn is_player(table: &Table, number: u32) -> bool
    ensures { IsTrue result ↔ IsPlayer table.now number }
{
    number > 0 && number as usize <= table.players().len()
}

// The layout of a table, or why there is none.
fn lay_out(
    alloc: Global,
    style: Style,
    table: &Table,
    row: u32,
    column: u32,
) -> Result<Vec<u8>, ConvertStop>
    ensures { Gives stops.Memory (laid_out style table.now row column)
        (map_ok result (λ text. text.items)) }
{
    if !is_player(table, row) {
        return Err(ConvertStop::NoSuchPlayer { number: row });
    }
    if !is_player(table, column) {
        return Err(ConvertStop::NoSuchPlayer { number: column });
    }
    if row == column {
        return Err(ConvertStop::SamePlayer { number: row });
    }
    Ok(write_layout(alloc, style, table, row as usize - 1, column as usize - 1)?)
}

/// The table as a web page's: the title, and a table whose rows and columns are the strategies of
/// two players, counted from 1; with more players one for each profile of the others, under a
/// heading that names it. A cell has the payoffs of the row player, the column player and the
/// others in order.
///
/// # Errors
///
/// `NoSuchPlayer` for the row player, then for the column player; `SamePlayer` where they are one;
/// `TooLarge` where the text would have more than 67,108,864 bytes; `Memory` where memory ran out.
pub fn html(alloc: Global, table: &Table, row: u32, column: u32) -> Result<Vec<u8>, ConvertStop>
    ensures { Gives stops.Memory (html_text table.now row column)
        (map_ok result (λ text. text.items)) }
{
    lay_out(alloc, Style::Html, table, row, column)
}

/// The table as games of the LaTeX package sgame, without the title; otherwise as `html`.
///
/// # Errors
///
/// Those of `html`.
pub fn sgame(alloc: Global, table: &Table, row: u32, column: u32) -> Result<Vec<u8>, ConvertStop>
    ensures { Gives stops.Memory (sgame_text table.now row column)
        (map_ok result (λ text. text.items)) }
{
    lay_out(alloc, Style::Sgame, table, row, column)
}

/// A table has at most one answer of each kind: the text, or why there is none.
pub fn layouts_are_single()
    ensures html { (table : GameTable) (row column : ℕ) → IsSingle (html_text table row column) }
    ensures sgame { (table : GameTable) (row column : ℕ) → IsSingle (sgame_text table row column) }
{}

/// A table has an answer of each kind.
pub fn layouts_are_answered()
    ensures html { (t : GameTable) (row column : ℕ) → IsAnswered (html_text t row column) }
    ensures sgame { (t : GameTable) (row column : ℕ) → IsAnswered (sgame_text t row column) }
{}

/// The layouts of the prisoners' dilemma.
pub fn prisoners_dilemma_is_laid_out()
    ensures { PrisonersDilemmaIsLaidOut }
{}
