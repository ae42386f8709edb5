// The tool `lcp`.
ghost use Rattle.std.specs.Prelude.{◌≡◌, Ok};
ghost use Rattle.answers.specs.Answers.{Gives, map_ok};
ghost use Rattle.sequence_data.specs.Sizes.{problem_rows};
ghost use Rattle.two_player_tools.specs.Lcp.{lcp};
ghost use Rattle.two_player_tools.specs.LcpLaws.{LcpTextsAreEquilibria};
ghost use Rattle.two_player_tools.specs.Perfect.{lcp_tool};
ghost use Rattle.two_player_tools.specs.TwoPlayers.{form_in, players_of};

use crate::entries::plans_line;
use crate::forms::{Method, form_in, two_players};
use crate::perfect::perfect_text;
use crate::pivoting::equilibrium_in;
use game_core::{Game, sets_are_numbered_by_first_nodes, trees_are_game_trees};
use refusals::Refusal;
use sequence_data::SeqForm;
use std::alloc::Global;
use subgames::sets_stand_in_one_cut;

// The line of an equilibrium of a game by its form.
fn form_text(
    alloc: Global,
    strategic: bool,
    game: &Game,
    form: &SeqForm,
) -> Result<Vec<u8>, Refusal>
    requires two { players_of game.now ≡ 2 }
    requires form { form_in problem_rows strategic game.now (Ok form.now) }
    ensures { Gives Refusal.Memory (lcp strategic game.now) (map_ok result (λ text. text.items)) }
{
    let plans = equilibrium_in(alloc, form)?;
    plans_line(alloc, strategic, game, form, plans.one(), plans.two())
}

// The line of an equilibrium of a game.
fn equilibrium_text(alloc: Global, strategic: bool, game: &Game) -> Result<Vec<u8>, Refusal>
    ensures { Gives Refusal.Memory (lcp strategic game.now) (map_ok result (λ text. text.items)) }
{
    two_players(game)?;
    let form = form_in(alloc, Method::Complementarity, strategic, game)?;
    form_text(alloc, strategic, game, &form)
}

/// The text of `lcp`: the line of an equilibrium of a game; of a tree, where `perfect` is set, one
/// that is found subgame by subgame.
///
/// # Errors
///
/// The first refusal in the order of the stages of `lcp`; `Memory` where memory ran out.
pub fn lcp_text(
    alloc: Global,
    strategic: bool,
    perfect: bool,
    game: &Game,
) -> Result<Vec<u8>, Refusal>
    ensures { Gives Refusal.Memory (lcp_tool strategic perfect game.now)
        (map_ok result (λ text. text.items)) }
{
    match game {
        Game::Extensive(tree) if perfect => perfect_text(alloc, Method::Complementarity, tree),
        _ => equilibrium_text(alloc, strategic, game),
    }
}

/// Each text of `lcp` is the line of an equilibrium of the game, which is subgame-perfect where a
/// tree is solved subgame by subgame.
pub fn lcp_texts_are_equilibria()
    ensures { LcpTextsAreEquilibria }
{
    trees_are_game_trees();
    sets_are_numbered_by_first_nodes();
    sets_stand_in_one_cut();
}
