// The tool `lp`.
ghost use Rattle.std.specs.Prelude.{◌≡◌, Ok};
ghost use Rattle.answers.specs.Answers.{Gives, map_ok};
ghost use Rattle.sequence_data.specs.Sizes.{program_size};
ghost use Rattle.two_player_tools.specs.Entries.{plans_line};
ghost use Rattle.two_player_tools.specs.Lp.{lp, solution_text};
ghost use Rattle.two_player_tools.specs.LpLaws.{LpTextsAreSolutions};
ghost use Rattle.two_player_tools.specs.Perfect.{lp_tool};
ghost use Rattle.two_player_tools.specs.Solved.{HasSizesOf, solution_of};
ghost use Rattle.two_player_tools.specs.TwoPlayers.{HasForm, form_in, players_of};

use crate::entries::plans_line;
use crate::forms::{Method, form_in, two_players};
use crate::perfect::perfect_text;
use crate::prices::price_lines;
use crate::solving::{Solved, solve};
use game_core::{Game, sets_are_numbered_by_first_nodes, trees_are_game_trees};
use refusals::Refusal;
use sequence_data::SeqForm;
use std::alloc::Global;
use subgames::sets_stand_in_one_cut;

// The line of a solution.
fn solution_line(
    alloc: Global,
    strategic: bool,
    game: &Game,
    form: &SeqForm,
    solved: &Solved,
) -> Result<Vec<u8>, Refusal>
    requires form { HasForm strategic game.now form.now }
    requires sizes { HasSizesOf form.now solved.now }
    ensures { Gives Refusal.Memory
        (plans_line strategic game.now solved.now.plans.one solved.now.plans.two)
        (map_ok result (λ text. text.items)) }
{
    let plans = &solved.plans;
    plans_line(alloc, strategic, game, form, plans.one(), plans.two())
}

// The text of a solution: its line, and where they are asked for its value and prices.
fn solution_text(
    alloc: Global,
    strategic: bool,
    prices: bool,
    game: &Game,
    form: &SeqForm,
    solved: &Solved,
) -> Result<Vec<u8>, Refusal>
    requires form { HasForm strategic game.now form.now }
    requires sizes { HasSizesOf form.now solved.now }
    ensures { Gives Refusal.Memory
        (solution_text strategic prices game.now form.now (solution_of form.now solved.now))
        (map_ok result (λ text. text.items)) }
{
    let mut text = solution_line(alloc, strategic, game, form, solved)?;
    let lines = price_lines(alloc, prices, form, solved)?;
    text.extend_from_slice(&lines)?;
    Ok(text)
}

// The line of an equilibrium of a game by its form, with its value and prices where they are asked
// for.
fn form_text(
    alloc: Global,
    strategic: bool,
    prices: bool,
    game: &Game,
    form: &SeqForm,
) -> Result<Vec<u8>, Refusal>
    requires two { players_of game.now ≡ 2 }
    requires form { form_in program_size strategic game.now (Ok form.now) }
    ensures { Gives Refusal.Memory (lp strategic prices game.now)
        (map_ok result (λ text. text.items)) }
{
    let solved = solve(alloc, form)?;
    solution_text(alloc, strategic, prices, game, form, &solved)
}

// The line of an equilibrium of a game, with its value and prices where they are asked for.
fn equilibrium_text(
    alloc: Global,
    strategic: bool,
    prices: bool,
    game: &Game,
) -> Result<Vec<u8>, Refusal>
    ensures { Gives Refusal.Memory (lp strategic prices game.now)
        (map_ok result (λ text. text.items)) }
{
    two_players(game)?;
    let form = form_in(alloc, Method::LinearProgram, strategic, game)?;
    form_text(alloc, strategic, prices, game, &form)
}

/// The text of `lp`: the line of an equilibrium of a game, with its value and prices where they are
/// asked for; of a tree, where `perfect` is set, the line of one that is found subgame by subgame.
///
/// # Errors
///
/// The first refusal in the order of the stages of `lp`; `Memory` where memory ran out.
pub fn lp_text(
    alloc: Global,
    strategic: bool,
    prices: bool,
    perfect: bool,
    game: &Game,
) -> Result<Vec<u8>, Refusal>
    ensures { Gives Refusal.Memory (lp_tool strategic prices perfect game.now)
        (map_ok result (λ text. text.items)) }
{
    match game {
        Game::Extensive(tree) if perfect => perfect_text(alloc, Method::LinearProgram, tree),
        _ => equilibrium_text(alloc, strategic, prices, game),
    }
}

/// Each text of `lp` is that of an equilibrium of the game, whose value the plans and prices of the
/// same solution prove; the prices are printed where they are asked for. Where a tree is solved
/// subgame by subgame it is the line of an equilibrium that is subgame-perfect.
pub fn lp_texts_are_solutions()
    ensures { LpTextsAreSolutions }
{
    trees_are_game_trees();
    sets_are_numbered_by_first_nodes();
    sets_stand_in_one_cut();
}
