// The tool `enummixed`.
ghost use Rattle.std.specs.Prelude.{false, option_map, string_bytes};
ghost use Rattle.answers.specs.Answers.{Gives, map_ok, then};
ghost use Rattle.words.specs.Words.{Enummixed};
ghost use Rattle.two_player_tools.specs.StrategicForms.{strategic_table};
ghost use Rattle.gambit_tools.specs.Enummixed.{enummixed, table_text, EnummixedTextsAreExtreme};
ghost use Rattle.gambit_tools.specs.Outcome.{IsComputed};

use crate::crew::Crew;
use crate::games::read_game;
use enummixed::{list_equilibria_of_kept, list_extreme_equilibria};
use game_core::{Game, Table};
use kept_strategies::undominated;
use outside::{Gate, Inputs};
use reduced_form::reduce;
use refusals::Refusal;
use std::alloc::Global;
use std::marker::Sync;
use std::thread::Threads;
use two_player_tools::two_players;

// The text of the extreme equilibria of a table, whose strictly dominated strategies are set aside.
fn text_of_kept<R: Threads + Sync, G: Gate>(
    crew: &Crew<R, G>,
    alloc: Global,
    table: &Table,
) -> Result<Vec<u8>, Refusal>
    ensures { Gives Refusal.Memory (table_text false table.now)
        (map_ok result (λ text. text.items)) }
{
    let kept = undominated(alloc, table)?;
    Ok(list_equilibria_of_kept(crew.rt, alloc, table, &kept, crew.workers, crew.gate)?)
}

// The text of the extreme equilibria of a table, looked for among all strategies or among those
// that are not strictly dominated.
fn table_text<R: Threads + Sync, G: Gate>(
    crew: &Crew<R, G>,
    alloc: Global,
    all: bool,
    table: &Table,
) -> Result<Vec<u8>, Refusal>
    ensures { Gives Refusal.Memory (table_text all table.now)
        (map_ok result (λ text. text.items)) }
{
    if all {
        Ok(list_extreme_equilibria(crew.rt, alloc, table, crew.workers, crew.gate)?)
    } else {
        text_of_kept(crew, alloc, table)
    }
}

// The text of the extreme equilibria of a game; those of a tree by its reduced strategies.
fn strategic_text<R: Threads + Sync, G: Gate>(
    crew: &Crew<R, G>,
    alloc: Global,
    all: bool,
    game: &Game,
) -> Result<Vec<u8>, Refusal>
    ensures { Gives Refusal.Memory (then (strategic_table game.now) (table_text all))
        (map_ok result (λ text. text.items)) }
{
    match game {
        Game::Strategic(table) => table_text(crew, alloc, all, table),
        Game::Extensive(tree) => {
            let reduced = reduce(alloc, tree)?;
            table_text(crew, alloc, all, reduced.table())
        }
    }
}

// The text of the extreme equilibria of a game of two players.
fn extreme_equilibria<R: Threads + Sync, G: Gate>(
    crew: &Crew<R, G>,
    alloc: Global,
    all: bool,
    game: &Game,
) -> Result<Vec<u8>, Refusal>
    ensures { Gives Refusal.Memory (enummixed all game.now) (map_ok result (λ text. text.items)) }
{
    two_players(game)?;
    strategic_text(crew, alloc, all, game)
}

/// Reads the game in a file, or on standard input where no file is named, and lists its extreme
/// equilibria. Where not all are asked for, strictly dominated strategies are set aside first. The
/// crew shares the enumeration. Neither setting changes what is listed.
pub(crate) fn enummixed<R: Threads + Sync, I: Inputs, G: Gate>(
    crew: &Crew<R, G>,
    alloc: Global,
    all: bool,
    file: Option<String>,
    inputs: &mut I,
) -> Result<Vec<u8>, Refusal>
    ensures { IsComputed (Enummixed all crew.now.workers (option_map string_bytes file))
        (I.seen inputs.old) (I.seen inputs.new) (map_ok result (λ text. text.items)) }
{
    let game = read_game(alloc, inputs, file)?;
    extreme_equilibria(crew, alloc, all, &game)
}

/// Each text of `enummixed` has the lines of exactly the extreme equilibria of the game's strategic
/// form, in order.
pub fn enummixed_texts_are_extreme()
    ensures { EnummixedTextsAreExtreme }
{}
