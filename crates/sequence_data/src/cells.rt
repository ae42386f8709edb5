// The cells of a form: the leaves go into them one after another.
ghost use Rattle.std.specs.Prelude.{◌≡◌, ◌<◌, ◌/◌, ◌^◌, [], All, Contains, map, length, slice_index, IfOk};
ghost use Rattle.std.specs.List.Sorted.{IsStrictlyIncreasing};
ghost use Rattle.answers.specs.Answers.{Gives, map_ok};
ghost use Rattle.sequence_data.specs.Cells.{AreCells};
ghost use Rattle.sequence_data.specs.Gathered.{ArePlaces, added_cell, cell_in, cell_place};
ghost use Rattle.sequence_data.specs.Steps.{added_steps, gathering_in, fit_at};
ghost use Rattle.sequence_data.specs.declared.stop.SeqStop.TheVariants as stops;

use crate::steps::{sum, with_product};
use crate::stop::SeqStop;
use crate::types::{Cell, Leaf};
use answers::Memory;
use frac128::Frac;
use std::alloc::Global;

// The place of a leaf's cell, where the cells stand row by row with so many columns.
fn cell_place(leaf: Leaf, columns: u32) -> u64
    requires { leaf.column < columns }
    ensures { result ≡ cell_place columns leaf }
{
    leaf.row as u64 * columns as u64 + leaf.column as u64
}

// The places of the leaves' cells, each once, in order.
fn cell_places(alloc: Global, leaves: &[Leaf], columns: u32) -> Result<Vec<u64>, Memory>
    requires { All (λ l. l.column < columns) leaves.now }
    ensures { IfOk result (λ places. ArePlaces columns leaves.now places.items) }
{
    let mut places = Vec::with_capacity(alloc, leaves.len())?;
    for leaf in leaves {
        places.push(cell_place(*leaf, columns))?;
    }
    places.sort_unstable();
    places.dedup();
    Ok(places)
}

// The cell at a place, without a leaf.
fn empty_cell(place: u64, columns: u32) -> Cell
    requires columns { 0 < columns }
    requires row { place / columns < 2 ^ 32 }
    ensures { result ≡ cell_in columns [] place }
{
    Cell {
        row: (place / columns as u64) as u32,
        column: (place % columns as u64) as u32,
        weight: Frac::zero(),
        one: Frac::zero(),
        two: Frac::zero(),
    }
}

// The cells at these places, without leaves.
fn empty_cells(alloc: Global, places: &[u64], columns: u32) -> Result<Vec<Cell>, Memory>
    requires columns { 0 < columns }
    requires rows { All (λ k. k / columns < 2 ^ 32) places.now }
    ensures { IfOk result (λ cells. cells.items ≡ map (cell_in columns []) places.now) }
{
    let mut cells = Vec::with_capacity(alloc, places.len())?;
    for place in places {
        cells.push(empty_cell(*place, columns))?;
    }
    Ok(cells)
}

// The number of a leaf's cell.
fn cell_number(places: &[u64], columns: u32, leaf: Leaf) -> usize
    requires column { leaf.column < columns }
    requires in_order { IsStrictlyIncreasing places.now }
    requires there { Contains places.now (cell_place columns leaf) }
    ensures within { result < length places.now }
    ensures place { slice_index places.now result ≡ cell_place columns leaf }
{
    match places.binary_search(&cell_place(leaf, columns)) {
        Ok(number) => number,
        Err(number) => number,
    }
}

// A cell with one more leaf.
fn with_leaf(cell: Cell, leaf: Leaf) -> Result<Cell, SeqStop>
    ensures cell { IfOk result (λ c. c ≡ added_cell cell leaf) }
    ensures steps { fit_at leaf.place (added_steps cell leaf) (map_ok result (λ _. tt)) }
{
    let weight = sum(leaf.place, cell.weight, leaf.chance)?;
    let one = with_product(leaf.place, cell.one, leaf.chance, leaf.one)?;
    let two = with_product(leaf.place, cell.two, leaf.chance, leaf.two)?;
    Ok(Cell {
        row: cell.row,
        column: cell.column,
        weight,
        one,
        two,
    })
}

/// The cells of the leaves, in order of rows and columns, where there are so many columns.
///
/// # Errors
///
/// `Range` exactly where a step does not fit: the first, leaves in order and in each the chance and
/// then both payoffs. `Memory` where memory ran out.
pub(crate) fn gather(alloc: Global, leaves: &[Leaf], columns: u32) -> Result<Vec<Cell>, SeqStop>
    requires columns { 0 < columns }
    requires rows { All (λ l. l.row < 2 ^ 32) leaves.now }
    requires within { All (λ l. l.column < columns) leaves.now }
    ensures cells { IfOk result (λ cells. AreCells leaves.now cells.items) }
    ensures steps { Gives stops.Memory (gathering_in leaves.now) (map_ok result (λ _. tt)) }
{
    let places = cell_places(alloc, leaves, columns)?;
    let mut cells = empty_cells(alloc, &places, columns)?;
    for leaf in leaves {
        let number = cell_number(&places, columns, *leaf);
        cells[number] = with_leaf(cells[number], *leaf)?;
    }
    Ok(cells)
}
