// The tool `convert`.
ghost use Rattle.std.specs.Prelude.{option_map, string_bytes};
ghost use Rattle.answers.specs.Answers.{Gives, map_ok};
ghost use Rattle.convert_tables.specs.declared.stops.ConvertStop.TheVariants as stops;
ghost use Rattle.words.specs.Words.{Convert};
ghost use Rattle.gambit_tools.specs.Convert.{convert, layout_in};
ghost use Rattle.gambit_tools.specs.Outcome.{IsComputed};

use crate::games::read_game;
use convert_tables::{ConvertStop, html, sgame};
use game_core::{Game, Table};
use outside::Inputs;
use reduced_form::reduce;
use refusals::Refusal;
use std::alloc::Global;
use words::Layout;

// The layout of a table.
fn layout_in(
    alloc: Global,
    layout: Layout,
    table: &Table,
    row: u32,
    column: u32,
) -> Result<Vec<u8>, ConvertStop>
    ensures { Gives stops.Memory (layout_in layout table.now row column)
        (map_ok result (λ text. text.items)) }
{
    match layout {
        Layout::Html => html(alloc, table, row, column),
        Layout::Sgame => sgame(alloc, table, row, column),
    }
}

// The layout of a game's strategic form.
fn strategic_layout(
    alloc: Global,
    layout: Layout,
    row: u32,
    column: u32,
    game: &Game,
) -> Result<Vec<u8>, Refusal>
    ensures { Gives Refusal.Memory (convert layout row column game.now)
        (map_ok result (λ text. text.items)) }
{
    match game {
        Game::Strategic(table) => Ok(layout_in(alloc, layout, table, row, column)?),
        Game::Extensive(tree) => {
            let reduced = reduce(alloc, tree)?;
            Ok(layout_in(alloc, layout, reduced.table(), row, column)?)
        }
    }
}

/// Reads the game in a file, or on standard input where no file is named, and lays out its
/// strategic form, in HTML or for the LaTeX package sgame. The row player and the column player are
/// numbered from 1.
pub(crate) fn convert<I: Inputs>(
    alloc: Global,
    layout: Layout,
    row: u32,
    column: u32,
    file: Option<String>,
    inputs: &mut I,
) -> Result<Vec<u8>, Refusal>
    ensures { IsComputed (Convert layout row column (option_map string_bytes file))
        (I.seen inputs.old) (I.seen inputs.new) (map_ok result (λ text. text.items)) }
{
    let game = read_game(alloc, inputs, file)?;
    strategic_layout(alloc, layout, row, column, &game)
}
