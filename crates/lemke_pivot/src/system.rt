// The system of a form's problem.
ghost use Rattle.std.specs.Prelude.{◌≡◌, ◌+◌, ◌*◌, ◌<◌, ◌≤◌, IfOk};
ghost use Rattle.game_core.specs.Limits.{most_rows};
ghost use Rattle.lex_tableau.specs.Entries.{AreEntries, entry_of};
ghost use Rattle.lemke_pivot.specs.Systems.{AreCosts, IsSystemAt, size_at, start_at};

use crate::lcp::row_count;
use crate::matrix::SideCosts;
use answers::Memory;
use frac128::Frac;
use lex_tableau::{System, numbered};
use std::alloc::Global;

// The entry of the start at a row and a column, the right side last, where there are so many rows.
fn entry(costs: &SideCosts, size: usize, row: usize, column: usize) -> Frac
    requires costs { AreCosts costs.now }
    requires size { size ≡ size_at costs.now }
    requires row { row < size }
    ensures { result ≡ entry_of (start_at costs.now) row column }
{
    if column < size {
        costs.matrix_entry(row, column).neg()
    } else if column == size {
        Frac::one().neg()
    } else {
        costs.right_entry(row)
    }
}

// All entries, row by row.
fn entries(alloc: Global, costs: &SideCosts, size: usize) -> Result<Vec<Frac>, Memory>
    requires costs { AreCosts costs.now }
    requires size { size ≡ size_at costs.now }
    requires few { size ≤ most_rows }
    ensures { IfOk result (λ cells.
        AreEntries (start_at costs.now) (size + 2) (size * (size + 2)) cells.items) }
{
    let mut cells = Vec::with_capacity(alloc, size * (size + 2))?;
    for k in 0..size * (size + 2) {
        cells.push(entry(costs, size, k / (size + 2), k % (size + 2)))?;
    }
    Ok(cells)
}

/// The system of the problem with these costs, row by row.
pub(crate) fn system(alloc: Global, costs: &SideCosts) -> Result<System, Memory>
    requires costs { AreCosts costs.now }
    requires few { size_at costs.now ≤ most_rows }
    ensures { IfOk result (IsSystemAt costs.now) }
{
    let size = row_count(costs.first, costs.second) as usize;
    let basics = numbered(alloc, 1, size as u32)?;
    let nonbasics = numbered(alloc, size as u32 + 1, size as u32 + 1)?;
    let cells = entries(alloc, costs, size)?;
    Ok(System::new(basics, nonbasics, cells, size))
}
