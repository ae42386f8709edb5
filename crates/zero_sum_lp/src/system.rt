// The system of a form's program.
ghost use Rattle.std.specs.Prelude.{◌≡◌, ◌+◌, ◌*◌, ◌<◌, ◌≤◌, ◌^◌, suc, length, IfOk};
ghost use Rattle.game_core.specs.Limits.{most_rows};
ghost use Rattle.zero_sum_lp.specs.Programs.{columns_of, constraints, objective_cell, plan_cell};
ghost use Rattle.sequence_data.specs.Data.{IsSideData, side_of};
ghost use Rattle.sequence_forms.specs.Sides.{sequences};
ghost use Rattle.sequence_data.specs.Sizes.{program_size, sizes_of};
ghost use Rattle.lex_tableau.specs.Entries.{AreEntries, entry_of};
ghost use Rattle.zero_sum_lp.specs.Systems.{IsSystemFor, listed_gain, listed_program, listed_reply};
ghost use Rattle.sequence_data.specs.Matrices.{matrix_size};

use answers::Memory;
use frac128::Frac;
use lex_tableau::{System, numbered};
use sequence_data::Side;
use std::alloc::Global;

// The entry of a row of the first player's plans in a column.
fn plan_entry(first: &Side, row: usize, column: usize) -> Frac
    requires side { IsSideData first.now }
    requires row { row ≤ length first.now.sets }
    ensures { result ≡ plan_cell (side_of first.now) row column }
{
    if column < first.sequences() as usize {
        first.set_entry(row, column)
    } else {
        Frac::zero()
    }
}

// The entry of the row of a sequence of the second player in a column.
fn reply_entry(first: &Side, second: &Side, gains: &[Frac], sequence: usize, column: usize) -> Frac
    requires first_side { IsSideData first.now }
    requires second_side { IsSideData second.now }
    requires gains { length gains.now ≡ matrix_size first.now second.now }
    requires sequence { sequence < sequences (side_of second.now) }
    requires column { column < columns_of (side_of first.now) (side_of second.now) }
    ensures { result ≡ listed_reply first.now second.now gains.now sequence column }
{
    let columns = first.sequences() as usize;
    if column < columns {
        gains[column * second.sequences() as usize + sequence].neg()
    } else {
        second.set_entry(column - columns, sequence)
    }
}

// The entry of the objective row in a column.
fn objective_entry(first: &Side, column: usize) -> Frac
    requires side { IsSideData first.now }
    ensures { result ≡ objective_cell (side_of first.now) column }
{
    if column == first.sequences() as usize {
        Frac::one().neg()
    } else {
        Frac::zero()
    }
}

// The entry of a row in a column, the right side last.
fn entry(first: &Side, second: &Side, gains: &[Frac], row: usize, column: usize) -> Frac
    requires first_side { IsSideData first.now }
    requires second_side { IsSideData second.now }
    requires gains { length gains.now ≡ matrix_size first.now second.now }
    requires row { row ≤ constraints (side_of first.now) (side_of second.now) }
    requires column { column ≤ columns_of (side_of first.now) (side_of second.now) }
    ensures { result ≡ entry_of (listed_program first.now second.now gains.now) row column }
{
    let plan_rows = first.sets().len() + 1;
    let width = first.sequences() as usize + second.sets().len() + 1;
    if column == width {
        if row == 0 { Frac::one() } else { Frac::zero() }
    } else if row < plan_rows {
        plan_entry(first, row, column)
    } else if row < plan_rows + second.sequences() as usize {
        reply_entry(first, second, gains, row - plan_rows, column)
    } else {
        objective_entry(first, column)
    }
}

// All entries, row by row.
fn entries(
    alloc: Global,
    first: &Side,
    second: &Side,
    gains: &[Frac],
    size: usize,
    rows: usize,
) -> Result<Vec<Frac>, Memory>
    requires first_side { IsSideData first.now }
    requires second_side { IsSideData second.now }
    requires gains { length gains.now ≡ matrix_size first.now second.now }
    requires few { rows * size < 2 ^ 32 }
    requires size { size ≡ suc (columns_of (side_of first.now) (side_of second.now)) }
    requires rows { rows ≡ suc (constraints (side_of first.now) (side_of second.now)) }
    ensures { IfOk result (λ cells.
        AreEntries (listed_program first.now second.now gains.now) size (rows * size) cells.items) }
{
    let mut cells = Vec::with_capacity(alloc, rows * size)?;
    for k in 0..rows * size {
        cells.push(entry(first, second, gains, k / size, k % size))?;
    }
    Ok(cells)
}

/// The system of the program with these gains, row by row.
pub(crate) fn system(
    alloc: Global,
    first: &Side,
    second: &Side,
    gains: &[Frac],
) -> Result<System, Memory>
    requires first_side { IsSideData first.now }
    requires second_side { IsSideData second.now }
    requires gains { length gains.now ≡ matrix_size first.now second.now }
    requires few { program_size (sizes_of (side_of first.now) (side_of second.now)) ≤ most_rows }
    ensures { IfOk result (IsSystemFor first.now second.now (listed_gain second.now gains.now)) }
{
    let rated = 1 + first.sets().len() + second.sequences() as usize;
    let width = first.sequences() as usize + second.sets().len() + 1;
    let mut basics = numbered(alloc, 1, rated as u32)?;
    basics.push((rated + width + 1) as u32)?;
    let nonbasics = numbered(alloc, rated as u32 + 1, width as u32)?;
    let cells = entries(alloc, first, second, gains, width + 1, rated + 1)?;
    Ok(System::new(basics, nonbasics, cells, rated))
}
