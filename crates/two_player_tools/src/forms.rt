// What the tools for two players need of a game.
ghost use Rattle.std.specs.Prelude.{◌≡◌, ◌≢◌, length};
ghost use Rattle.answers.specs.Answers.{Gives, refuse_where, refused_by};
ghost use Rattle.game_core.specs.Limits.{most_rows, within};
ghost use Rattle.game_core.specs.TreeGame.{game_of_tree};
ghost use Rattle.perfect_recall.specs.Found.{IsRecallOf};
ghost use Rattle.sequence_data.specs.Sizes.{AreFew};
ghost use Rattle.two_player_tools.specs.TwoPlayers.{players_of, two_players, rows_by, table_form_within, tree_form_within, form_in};

use game_core::{Game, MOST_ROWS, Table, TooLarge, Tree, What};
use perfect_recall::{Recall, find_recall};
use reduced_form::reduce;
use refusals::Refusal;
use sequence_data::SeqForm;
use sequence_form::{Counts, build, build_table, counts_table, counts_tree, program_size, rows};
use std::alloc::Global;

/// How a sequence form is solved.
#[derive(Clone, Copy, Debug, PartialEq, Eq)]
pub enum Method {
    /// By its linear program.
    LinearProgram,
    /// By its complementarity problem.
    Complementarity,
}

// How many players a game has.
fn player_count(game: &Game) -> u32
    ensures { result ≡ players_of game.now }
{
    match game {
        Game::Strategic(table) => table.players().len() as u32,
        Game::Extensive(tree) => tree.players().len() as u32,
    }
}

/// Refuses so many players where they are not two. Takes no memory.
pub(crate) fn two_players_of(count: u32) -> Result<(), Refusal>
    ensures { refuse_where (count ≢ 2) (Refusal.NotTwoPlayers count) result }
{
    if count == 2 {
        Ok(())
    } else {
        Err(Refusal::NotTwoPlayers { count })
    }
}

/// Refuses a game that does not have two players. Takes no memory.
///
/// # Errors
///
/// `NotTwoPlayers`, with their number, exactly where there are not two.
pub fn two_players(game: &Game) -> Result<(), Refusal>
    ensures { two_players game.now result }
{
    two_players_of(player_count(game))
}

// How many rows a form of these sizes has: of its linear program with the columns, or of its
// complementarity problem.
fn row_count(method: Method, sizes: &Counts) -> u64
    requires { AreFew sizes.now }
    ensures { result ≡ rows_by method sizes.now }
{
    match method {
        Method::LinearProgram => program_size(sizes),
        Method::Complementarity => rows(sizes),
    }
}

// Refuses a problem with more rows than there may be. Takes no memory.
fn within_rows(rows: u64) -> Result<(), Refusal>
    ensures { refused_by Refusal.TooLarge (within What.Rows most_rows rows) result }
{
    Ok(TooLarge::within(What::Rows, MOST_ROWS, rows)?)
}

// The sequence form of a table, where the rows that the method counts are within the limit.
fn table_form_within(alloc: Global, method: Method, table: &Table) -> Result<SeqForm, Refusal>
    requires { length table.now.players ≡ 2 }
    ensures { Gives Refusal.Memory (table_form_within (rows_by method) table.now) result }
{
    within_rows(row_count(method, &counts_table(table)))?;
    Ok(build_table(alloc, table)?)
}

// The sequence form of a tree in which all players recall, where the rows that the method counts
// are within the limit.
fn form_by_recall(
    alloc: Global,
    method: Method,
    tree: &Tree,
    recall: &Recall,
) -> Result<SeqForm, Refusal>
    requires two { length tree.now.players ≡ 2 }
    requires recall { IsRecallOf (game_of_tree tree.now) recall.now }
    ensures { Gives Refusal.Memory (tree_form_within (rows_by method) tree.now) result }
{
    within_rows(row_count(method, &counts_tree(tree)))?;
    Ok(build(alloc, tree, recall)?)
}

/// The sequence form of a tree, where the rows that the method counts are within the limit.
pub(crate) fn tree_form_within(
    alloc: Global,
    method: Method,
    tree: &Tree,
) -> Result<SeqForm, Refusal>
    requires { length tree.now.players ≡ 2 }
    ensures { Gives Refusal.Memory (tree_form_within (rows_by method) tree.now) result }
{
    let recall = find_recall(alloc, tree)?;
    form_by_recall(alloc, method, tree, &recall)
}

/// The sequence form of a game, where the rows that the method counts are within the limit: of a
/// tree by its own sequences, or by its reduced strategies.
pub(crate) fn form_in(
    alloc: Global,
    method: Method,
    strategic: bool,
    game: &Game,
) -> Result<SeqForm, Refusal>
    requires { players_of game.now ≡ 2 }
    ensures { Gives Refusal.Memory (form_in (rows_by method) strategic game.now) result }
{
    match game {
        Game::Strategic(table) => table_form_within(alloc, method, table),
        Game::Extensive(tree) if strategic => {
            let reduced = reduce(alloc, tree)?;
            table_form_within(alloc, method, reduced.table())
        }
        Game::Extensive(tree) => tree_form_within(alloc, method, tree),
    }
}
