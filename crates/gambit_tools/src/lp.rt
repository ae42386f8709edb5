// The tool `lp`.
ghost use Rattle.std.specs.Prelude.{option_map, string_bytes};
ghost use Rattle.answers.specs.Answers.{map_ok};
ghost use Rattle.words.specs.Words.{Lp as LpCommand};
ghost use Rattle.gambit_tools.specs.Outcome.{IsComputed};

use crate::games::read_game;
use outside::Inputs;
use refusals::Refusal;
use std::alloc::Global;
use two_player_tools::lp_text;

/// Reads the game in a file, or on standard input where no file is named, and prints an equilibrium
/// of it, with the value and the prices where they are asked for: of a tree, where `perfect` is
/// set, one that is found subgame by subgame.
pub(crate) fn lp<I: Inputs>(
    alloc: Global,
    strategic: bool,
    prices: bool,
    perfect: bool,
    file: Option<String>,
    inputs: &mut I,
) -> Result<Vec<u8>, Refusal>
    ensures { IsComputed (LpCommand strategic prices perfect (option_map string_bytes file))
        (I.seen inputs.old) (I.seen inputs.new) (map_ok result (λ text. text.items)) }
{
    let game = read_game(alloc, inputs, file)?;
    lp_text(alloc, strategic, prices, perfect, &game)
}
