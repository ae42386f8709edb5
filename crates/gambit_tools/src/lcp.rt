// The tool `lcp`.
ghost use Rattle.std.specs.Prelude.{option_map, string_bytes};
ghost use Rattle.answers.specs.Answers.{map_ok};
ghost use Rattle.words.specs.Words.{Lcp as LcpCommand};
ghost use Rattle.gambit_tools.specs.Outcome.{IsComputed};

use crate::games::read_game;
use outside::Inputs;
use refusals::Refusal;
use std::alloc::Global;
use two_player_tools::lcp_text;

/// Reads the game in a file, or on standard input where no file is named, and prints an equilibrium
/// of it: of a tree, where `perfect` is set, one that is found subgame by subgame.
pub(crate) fn lcp<I: Inputs>(
    alloc: Global,
    strategic: bool,
    perfect: bool,
    file: Option<String>,
    inputs: &mut I,
) -> Result<Vec<u8>, Refusal>
    ensures { IsComputed (LcpCommand strategic perfect (option_map string_bytes file))
        (I.seen inputs.old) (I.seen inputs.new) (map_ok result (λ text. text.items)) }
{
    let game = read_game(alloc, inputs, file)?;
    lcp_text(alloc, strategic, perfect, &game)
}
