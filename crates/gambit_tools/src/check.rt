// The tool `check`.
ghost use Rattle.std.specs.Prelude.{false, option_map, string_bytes, true};
ghost use Rattle.game_core.specs.declared.game.Game.TheVariants.{Extensive};
ghost use Rattle.answers.specs.Answers.{Gives, map_ok};
ghost use Rattle.words.specs.Words.{Check};
ghost use Rattle.gambit_tools.specs.Check.{verdicts};
ghost use Rattle.gambit_tools.specs.Outcome.{IsComputed};

use crate::games::game_in;
use crate::input::read_input;
use game_core::{Game, Tree};
use ne_checker::{check_table_lines, check_tree_lines};
use outside::Inputs;
use perfect_recall::find_recall;
use reduced_form::reduce;
use refusals::Refusal;
use std::alloc::Global;

// The verdicts of lines of strategies of a tree.
fn strategic_verdicts(alloc: Global, tree: &Tree, lines: &[u8]) -> Result<Vec<u8>, Refusal>
    ensures { Gives Refusal.Memory (verdicts true (Extensive tree.now) lines.now)
        (map_ok result (λ text. text.items)) }
{
    let reduced = reduce(alloc, tree)?;
    Ok(check_table_lines(alloc, reduced.table(), lines)?)
}

// The verdicts of lines of behaviour on a tree.
fn behaviour_verdicts(alloc: Global, tree: &Tree, lines: &[u8]) -> Result<Vec<u8>, Refusal>
    ensures { Gives Refusal.Memory (verdicts false (Extensive tree.now) lines.now)
        (map_ok result (λ text. text.items)) }
{
    let recall = find_recall(alloc, tree)?;
    Ok(check_tree_lines(alloc, tree, &recall, lines)?)
}

// The verdicts of lines on a game.
fn verdicts(alloc: Global, strategic: bool, game: &Game, lines: &[u8]) -> Result<Vec<u8>, Refusal>
    ensures { Gives Refusal.Memory (verdicts strategic game.now lines.now)
        (map_ok result (λ text. text.items)) }
{
    match game {
        Game::Strategic(table) => Ok(check_table_lines(alloc, table, lines)?),
        Game::Extensive(tree) if strategic => strategic_verdicts(alloc, tree, lines),
        Game::Extensive(tree) => behaviour_verdicts(alloc, tree, lines),
    }
}

/// Reads a game, and then a list of lines, from a file or from standard input, and judges each
/// line: whether its profile is an equilibrium, and who has a better reply where it is none.
pub(crate) fn check<I: Inputs>(
    alloc: Global,
    strategic: bool,
    game: String,
    lines: Option<String>,
    inputs: &mut I,
) -> Result<Vec<u8>, Refusal>
    ensures { IsComputed (Check strategic (string_bytes game) (option_map string_bytes lines))
        (I.seen inputs.old) (I.seen inputs.new) (map_ok result (λ text. text.items)) }
{
    let bytes = read_input(alloc, inputs, Some(game))?;
    let lines = read_input(alloc, inputs, lines)?;
    let game = game_in(alloc, &bytes)?;
    verdicts(alloc, strategic, &game, &lines)
}
