// The sequence form of a table.
ghost use Rattle.std.specs.Prelude.{◌≡◌, ◌<◌, ◌+◌, ◌^◌, length, IfOk};
ghost use Rattle.answers.specs.Answers.{Gives};
ghost use Rattle.game_theory.specs.Profiles.{profile_count};
ghost use Rattle.game_core.specs.Table.{strategy_counts};
ghost use Rattle.sequence_data.specs.declared.stop.SeqStop.TheVariants as stops;
ghost use Rattle.sequence_form.specs.Forms.{profile_leaf, table_form, table_leaves};
ghost use Rattle.sequence_form.specs.Sequences.{start_side};

use answers::Memory;
use frac128::Frac;
use game_core::Table;
use sequence_data::{Leaf, SeqForm, SeqStop, SetRow, Side};
use std::alloc::Global;

// One set, at the start, with so many actions.
fn start_side(alloc: Global, count: u32) -> Result<Side, Memory>
    requires { count + 1 < 2 ^ 32 }
    ensures { IfOk result (λ side. side ≡ start_side count) }
{
    let mut sets = Vec::new(alloc);
    sets.push(SetRow {
        before: 0,
        first: 1,
        count,
    })?;
    Ok(Side::new(count + 1, sets))
}

// The profile with a number, as a leaf.
fn profile_leaf(table: &Table, number: usize) -> Leaf
    requires two { length table.now.players ≡ 2 }
    requires number { number < profile_count (strategy_counts table.now) }
    ensures { result ≡ profile_leaf table.now number }
{
    let rows = table.strategy_count(0);
    Leaf {
        place: number as u32,
        row: (number % rows) as u32 + 1,
        column: (number / rows) as u32 + 1,
        chance: Frac::one(),
        one: table.payoff_at(number, 0),
        two: table.payoff_at(number, 1),
    }
}

// The profiles of a table.
fn profiles(alloc: Global, table: &Table) -> Result<Vec<Leaf>, Memory>
    requires { length table.now.players ≡ 2 }
    ensures { IfOk result (λ leaves. leaves.items ≡ table_leaves table.now) }
{
    let profiles = table.payoffs().len() / 2;
    let mut leaves = Vec::with_capacity(alloc, profiles)?;
    for number in 0..profiles {
        leaves.push(profile_leaf(table, number))?;
    }
    Ok(leaves)
}

/// The sequence form of a table of two players: each chooses once, at one set, and the profiles are
/// leaves of chance 1.
///
/// # Errors
///
/// `NotTwoPlayers` exactly where the table has another number of players. `Range` exactly where it
/// has two and a step does not fit: the first, profiles in order, each into its cell. `Memory`
/// where memory ran out.
pub fn build_table(alloc: Global, table: &Table) -> Result<SeqForm, SeqStop>
    ensures { Gives stops.Memory (table_form table.now) result }
{
    let players = table.players().len();
    if players != 2 {
        return Err(SeqStop::NotTwoPlayers {
            count: players as u32,
        });
    }
    let first = start_side(alloc, table.strategy_count(0) as u32)?;
    let second = start_side(alloc, table.strategy_count(1) as u32)?;
    let leaves = profiles(alloc, table)?;
    SeqForm::of_leaves(alloc, first, second, leaves)
}
