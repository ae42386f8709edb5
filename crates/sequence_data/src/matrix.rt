// Numbers of cells, row by row.
ghost use Rattle.std.specs.Prelude.{◌≡◌, ◌*◌, ◌<◌, ◌^◌, All, length, IfOk};
ghost use Rattle.sequence_data.specs.Cells.{AreCellsInOrder};
ghost use Rattle.sequence_data.specs.Matrices.{HoldsNumbers, IsInside, placed};

use crate::types::Cell;
use answers::Memory;
use frac128::Frac;
use std::alloc::Global;

/// A matrix row by row: at each cell its number, and 0 elsewhere.
///
/// # Errors
///
/// Memory ran out.
pub fn dense(
    alloc: Global,
    rows: usize,
    columns: usize,
    cells: &[Cell],
    numbers: &[Frac],
) -> Result<Vec<Frac>, Memory>
    requires small { rows * columns < 2 ^ 32 }
    requires inside { All (IsInside rows columns) cells.now }
    requires in_order { AreCellsInOrder cells.now }
    requires same { length numbers.now ≡ length cells.now }
    ensures length { IfOk result (λ matrix. length matrix.items ≡ rows * columns) }
    ensures entries { IfOk result
        (λ matrix. HoldsNumbers rows columns (placed cells.now numbers.now) matrix.items) }
{
    let mut matrix = vec![in alloc; Frac::zero(); rows * columns]?;
    for k in 0..cells.len() {
        let cell = cells[k];
        matrix[cell.row as usize * columns + cell.column as usize] = numbers[k];
    }
    Ok(matrix)
}
