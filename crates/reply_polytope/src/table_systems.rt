// The systems of best replies of a table.
ghost use Rattle.answers.specs.Answers.{Gives};
ghost use Rattle.game_core.specs.Table.{game_of};
ghost use Rattle.reply_polytope.specs.declared.stop.PolyStop.TheVariants as stops;
ghost use Rattle.reply_polytope.specs.Stops.{polytopes_in};

use crate::shifts::shifted_payoffs;
use crate::stop::PolyStop;
use crate::systems::{first_reply_system, second_reply_system};
use game_core::{Table, TooLarge, What};
use lex_tableau::System;
use std::alloc::Global;

// The most labels.
const MOST_LABELS: u64 = 128;

/// The systems of the polytopes of both players' best replies. Variables are labels, numbered from
/// 1: first the first player's strategies and then the second's. The first system has a row for
/// each strategy of the second player and a column for each of the first's, and the second the
/// other way round.
///
/// # Errors
///
/// `NotTwoPlayers` exactly where there is another number of players; `TooLarge` exactly where two
/// have more than 128 strategies together; `Range` exactly where neither holds and a step of the
/// shift of a player's payoffs does not fit, with the first such step. `Memory` where memory ran
/// out.
pub fn polytopes(alloc: Global, table: &Table) -> Result<(System, System), PolyStop>
    ensures { Gives stops.Memory (polytopes_in (game_of table.now)) result }
{
    let players = table.players().len();
    if players != 2 {
        return Err(PolyStop::NotTwoPlayers {
            count: players as u32,
        });
    }
    let rows = table.strategy_count(0);
    let columns = table.strategy_count(1);
    TooLarge::within(What::Labels, MOST_LABELS, (rows + columns) as u64)?;
    let first = shifted_payoffs(alloc, table, 0, rows * columns)?;
    let second = shifted_payoffs(alloc, table, 1, rows * columns)?;
    let one = first_reply_system(alloc, rows, columns, &second)?;
    let two = second_reply_system(alloc, rows, columns, &first)?;
    Ok((one, two))
}
