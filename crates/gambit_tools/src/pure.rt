// The tool `enumpure`.
ghost use Rattle.std.specs.Prelude.{option_map, string_bytes};
ghost use Rattle.answers.specs.Answers.{Gives, map_ok};
ghost use Rattle.words.specs.Words.{Enumpure};
ghost use Rattle.gambit_tools.specs.Enumpure.{enumpure, tree_answer};
ghost use Rattle.gambit_tools.specs.Outcome.{IsComputed};

use crate::games::read_game;
use enumpure::list_pure_equilibria;
use enumpure_trees::{list_passing_choices, list_pure_behaviours};
use game_core::{Game, Tree};
use outside::Inputs;
use reduced_form::reduce;
use refusals::Refusal;
use std::alloc::Global;

// The text of a tree's pure equilibria as behaviour, or of the choices that pass.
fn tree_equilibria(
    alloc: Global,
    agents: bool,
    perfect: bool,
    tree: &Tree,
) -> Result<Vec<u8>, Refusal>
    ensures { Gives Refusal.Memory (tree_answer agents perfect tree.now)
        (map_ok result (λ text. text.items)) }
{
    if agents || perfect {
        return Ok(list_passing_choices(alloc, agents, perfect, tree)?);
    }
    let reduced = reduce(alloc, tree)?;
    Ok(list_pure_behaviours(alloc, tree, &reduced)?)
}

// The text of the pure equilibria of a game; those of a tree by strategies or as behaviour.
fn pure_equilibria(
    alloc: Global,
    strategic: bool,
    agents: bool,
    perfect: bool,
    game: &Game,
) -> Result<Vec<u8>, Refusal>
    ensures { Gives Refusal.Memory (enumpure strategic agents perfect game.now)
        (map_ok result (λ text. text.items)) }
{
    match game {
        Game::Strategic(table) => Ok(list_pure_equilibria(alloc, table)?),
        Game::Extensive(tree) if strategic => {
            let reduced = reduce(alloc, tree)?;
            Ok(list_pure_equilibria(alloc, reduced.table())?)
        }
        Game::Extensive(tree) => tree_equilibria(alloc, agents, perfect, tree),
    }
}

/// Reads the game in a file, or on standard input where no file is named, and lists its pure
/// equilibria: by strategies where `strategic` is set, and else those of a tree as behaviour, or
/// the choices that pass where `agents` or `perfect` is set.
pub(crate) fn enumpure<I: Inputs>(
    alloc: Global,
    strategic: bool,
    agents: bool,
    perfect: bool,
    file: Option<String>,
    inputs: &mut I,
) -> Result<Vec<u8>, Refusal>
    ensures { IsComputed (Enumpure strategic agents perfect (option_map string_bytes file))
        (I.seen inputs.old) (I.seen inputs.new) (map_ok result (λ text. text.items)) }
{
    let game = read_game(alloc, inputs, file)?;
    pure_equilibria(alloc, strategic, agents, perfect, &game)
}
