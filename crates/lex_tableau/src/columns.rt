// The columns of the start's variables.
ghost use Rattle.std.specs.Prelude.{◌≡◌, ◌<◌, length, get_or, slice_set, replicate, IfOk};
ghost use Rattle.lex_tableau.specs.Columns.{AreColumnsOf};
ghost use Rattle.lex_tableau.specs.Ratio.{HasEachOnce};

use answers::Memory;
use std::alloc::Global;

// The columns of so many basic variables, which stand in none.
pub(crate) fn no_columns(alloc: Global, count: usize) -> Result<Vec<u32>, Memory>
    ensures { IfOk result (λ v. v.items ≡ replicate count 0) }
{
    Ok(vec![in alloc; 0; count]?)
}

// Writes the columns of the start's variables where the basic variable of a row and the nonbasic
// variable of a column are about to change places.
pub(crate) fn exchange_columns(
    columns: &mut [u32],
    starts: &[u32],
    basics: &[u32],
    nonbasics: &[u32],
    row: usize,
    col: usize,
)
    requires row_in { row < length basics.now }
    requires col_in { col < length nonbasics.now }
    requires distinct { HasEachOnce basics.now nonbasics.now }
    requires columns { AreColumnsOf nonbasics.now starts.now columns.old }
    ensures length { length columns.new ≡ length columns.old }
    ensures columns { AreColumnsOf
        (slice_set nonbasics.now col (get_or basics.now row 0)) starts.now columns.new }
{
    let leaving = basics[row];
    let entering = nonbasics[col];
    for place in 0..starts.len() {
        if starts[place] == entering {
            columns[place] = 0;
        } else if starts[place] == leaving {
            columns[place] = col as u32 + 1;
        }
    }
}
