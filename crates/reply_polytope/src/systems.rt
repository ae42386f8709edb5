// Systems of slacks, and the two of best replies.
ghost use Rattle.std.specs.Prelude.{◌≡◌, ◌+◌, ◌*◌, ◌<◌, ◌≤◌, IfOk, length};
ghost use Rattle.extreme_equilibria.specs.Systems.{first_system, second_system};
ghost use Rattle.lex_tableau.specs.Entries.{AreEntries, entry_of};
ghost use Rattle.reply_polytope.specs.Polytopes.{IsRatedSystem, most_labels};
ghost use Rattle.reply_polytope.specs.Shapes.{IsReadable, cell_in, slack_system};

use answers::Memory;
use frac128::Frac;
use lex_tableau::{System, numbered};
use std::alloc::Global;

/// The shape of a system: its rows and columns, its variables, which are numbered from first ones
/// on, and how far its cells stand apart in a list.
#[derive(Clone, Copy)]
pub(crate) struct Shape {
    pub(crate) rows: usize,
    pub(crate) width: usize,
    pub(crate) first_basic: u32,
    pub(crate) first_nonbasic: u32,
    pub(crate) row_stride: usize,
    pub(crate) column_stride: usize,
}

// The entry at a row and a column, the right side 1 last.
fn entry(shape: &Shape, numbers: &[Frac], row: usize, column: usize) -> Frac
    requires shape { IsReadable (length numbers.now) shape.now }
    requires row { row < shape.now.rows }
    ensures { result ≡ entry_of (slack_system numbers.now shape.now) row column }
{
    if column < shape.width {
        numbers[row * shape.row_stride + column * shape.column_stride]
    } else {
        Frac::one()
    }
}

// All entries, row by row.
fn entries(alloc: Global, shape: &Shape, numbers: &[Frac]) -> Result<Vec<Frac>, Memory>
    requires { IsReadable (length numbers.now) shape.now }
    ensures { IfOk result (λ cells. AreEntries (slack_system numbers.now shape.now)
        (shape.now.width + 1) (shape.now.rows * (shape.now.width + 1)) cells.items) }
{
    let size = shape.width + 1;
    let mut cells = Vec::with_capacity(alloc, shape.rows * size)?;
    for k in 0..shape.rows * size {
        cells.push(entry(shape, numbers, k / size, k % size))?;
    }
    Ok(cells)
}

// The system of this shape, with right sides 1. All rows are rated.
fn slack_system(alloc: Global, shape: &Shape, numbers: &[Frac]) -> Result<System, Memory>
    requires { IsReadable (length numbers.now) shape.now }
    ensures { IfOk result (IsRatedSystem (slack_system numbers.now shape.now)) }
{
    let cells = entries(alloc, shape, numbers)?;
    let basics = numbered(alloc, shape.first_basic, shape.rows as u32)?;
    let nonbasics = numbered(alloc, shape.first_nonbasic, shape.width as u32)?;
    Ok(System::new(basics, nonbasics, cells, shape.rows))
}

/// The system whose rows are the second player's strategies, where that player's payoffs stand in
/// file order.
pub(crate) fn first_reply_system(
    alloc: Global,
    rows: usize,
    columns: usize,
    payoffs: &[Frac],
) -> Result<System, Memory>
    requires few { rows + columns ≤ most_labels }
    requires payoffs { length payoffs.now ≡ rows * columns }
    ensures { IfOk result
        (IsRatedSystem (first_system rows columns (cell_in payoffs.now rows 1))) }
{
    let shape = Shape {
        rows: columns,
        width: rows,
        first_basic: rows as u32 + 1,
        first_nonbasic: 1,
        row_stride: rows,
        column_stride: 1,
    };
    slack_system(alloc, &shape, payoffs)
}

/// The system whose rows are the first player's strategies, where that player's payoffs stand in
/// file order.
pub(crate) fn second_reply_system(
    alloc: Global,
    rows: usize,
    columns: usize,
    payoffs: &[Frac],
) -> Result<System, Memory>
    requires few { rows + columns ≤ most_labels }
    requires payoffs { length payoffs.now ≡ rows * columns }
    ensures { IfOk result
        (IsRatedSystem (second_system rows columns (cell_in payoffs.now 1 rows))) }
{
    let shape = Shape {
        rows,
        width: columns,
        first_basic: 1,
        first_nonbasic: rows as u32 + 1,
        row_stride: 1,
        column_stride: rows,
    };
    slack_system(alloc, &shape, payoffs)
}
