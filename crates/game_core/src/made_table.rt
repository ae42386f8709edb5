// Tables whose payoffs a generator draws from a seed.
ghost use Rattle.std.specs.Prelude.{◌≡◌, ◌*◌, ◌<◌, ◌≤◌, [], replicate, IfOk};
ghost use Rattle.game_core.specs.Table.{most_payoffs};
ghost use Rattle.game_core.specs.MadeTables.{made_table};
ghost use Rattle.game_core.specs.MadeTableLaws.{MadeTablesPayDraws};

use crate::draws::made_payoffs;
use crate::name::Name;
use crate::table::Table;
use answers::Memory;
use std::alloc::Global;

// So many empty names.
fn empty_names(alloc: Global, count: usize) -> Result<Vec<Name>, Memory>
    ensures { IfOk result (λ names. names.items ≡ replicate count []) }
{
    let mut names = Vec::with_capacity(alloc, count)?;
    for _ in 0..count {
        names.push(Name::new(Vec::new(alloc)))?;
    }
    Ok(names)
}

/// The table of two players with so many strategies whose payoffs are drawn from a seed, profile by
/// profile in file order, the first player's before the second's. All its names are empty.
///
/// # Errors
///
/// Memory ran out.
pub fn make_table(alloc: Global, seed: u32, rows: u32, columns: u32) -> Result<Table, Memory>
    requires rows { 0 < rows }
    requires columns { 0 < columns }
    requires few { 2 * (rows * columns) ≤ most_payoffs }
    ensures { IfOk result (λ table. table ≡ made_table seed rows columns) }
{
    let payoffs = made_payoffs(alloc, seed, 2 * (rows as usize * columns as usize))?;
    let players = empty_names(alloc, 2)?;
    let first = empty_names(alloc, rows as usize)?;
    let second = empty_names(alloc, columns as usize)?;
    let strategies = Vec::from_array(alloc, [first, second])?;
    let title = Name::new(Vec::new(alloc));
    Ok(Table::new(title, players, strategies, payoffs))
}

/// What the game of a made table pays.
pub fn made_tables_pay_draws()
    ensures { MadeTablesPayDraws }
{}
