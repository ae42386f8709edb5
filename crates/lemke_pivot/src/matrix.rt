// The entries of the problem's matrix, block by block: the rows and columns of both plans, x and y,
// and of the prices of both players, which stand twice: once with their sign, and once against it.
ghost use Rattle.std.specs.Prelude.{◌≡◌};
ghost use Rattle.sequence_forms.specs.Matrices.{right_side};

use frac128::Frac;
use sequence_data::Side;

/// Both players' sides, and the costs of both, row by row: one for each sequence of the first
/// player with each of the second. Rows and columns of the problem count from 0.
#[derive(Drop)]
pub(crate) struct SideCosts<'a> {
    pub(crate) first: &'a Side,
    pub(crate) second: &'a Side,
    pub(crate) one: &'a [Frac],
    pub(crate) two: &'a [Frac],
}

// The right side of a row of plans: 1 for the whole game, and 0 for each set.
fn plan_right(row: usize) -> Frac
    ensures { result ≡ right_side row }
{
    if row == 0 { Frac::one() } else { Frac::zero() }
}

impl<'a> SideCosts<'a> {
    ghost use Rattle.std.specs.Prelude.{◌≡◌, ◌<◌, ◌≤◌, length};
    ghost use Rattle.lemke_pivot.specs.Problems.{
      matrix,
      right_sides,
      rows_p,
      rows_q,
      rows_x,
      rows_y,
    };
    ghost use Rattle.lemke_pivot.specs.Systems.{AreCosts, columns_at, costs_at, rows_at, size_at};

    // The entry in the row of a sequence of the first player.
    fn first_plan_entry(&self, row: usize, column: usize) -> Frac
        requires costs { AreCosts self.now }
        requires row { row < rows_at self.now }
        ensures { result ≡ rows_x (costs_at self.now) row column }
    {
        let columns = self.second.sequences() as usize;
        let prices = self.first.sets().len() + 1;
        if column < self.first.sequences() as usize {
            return Frac::zero();
        }
        let column = column - self.first.sequences() as usize;
        if column < columns {
            return self.one[row * columns + column];
        }
        let column = column - columns;
        if column < prices {
            return self.first.set_entry(column, row).neg();
        }
        let column = column - prices;
        if column < prices {
            return self.first.set_entry(column, row);
        }
        Frac::zero()
    }

    // The entry in the row of a sequence of the second player.
    fn second_plan_entry(&self, row: usize, column: usize) -> Frac
        requires costs { AreCosts self.now }
        requires row { row < columns_at self.now }
        requires column { column < size_at self.now }
        ensures { result ≡ rows_y (costs_at self.now) row column }
    {
        let columns = self.second.sequences() as usize;
        let prices = self.second.sets().len() + 1;
        if column < self.first.sequences() as usize {
            return self.two[column * columns + row];
        }
        let column = column - self.first.sequences() as usize;
        let before = columns + 2 * (self.first.sets().len() + 1);
        if column < before {
            return Frac::zero();
        }
        let column = column - before;
        if column < prices {
            return self.second.set_entry(column, row).neg();
        }
        self.second.set_entry(column - prices, row)
    }

    // The entry in the row of a price of the first player.
    fn first_price_entry(&self, row: usize, column: usize) -> Frac
        requires costs { AreCosts self.now }
        requires row { row ≤ length self.now.first.now.sets }
        ensures { result ≡ rows_p (costs_at self.now) row column }
    {
        if column < self.first.sequences() as usize {
            return self.first.set_entry(row, column);
        }
        Frac::zero()
    }

    // The entry in the row of a price of the second player.
    fn second_price_entry(&self, row: usize, column: usize) -> Frac
        requires costs { AreCosts self.now }
        requires row { row ≤ length self.now.second.now.sets }
        ensures { result ≡ rows_q (costs_at self.now) row column }
    {
        if column < self.first.sequences() as usize {
            return Frac::zero();
        }
        let column = column - self.first.sequences() as usize;
        if column < self.second.sequences() as usize {
            return self.second.set_entry(row, column);
        }
        Frac::zero()
    }

    /// The entry of the matrix at a row and a column.
    #[tactic(auto, unfolding(crate::specs::Problems::matrix))]
    pub(crate) fn matrix_entry(&self, row: usize, column: usize) -> Frac
        requires costs { AreCosts self.now }
        requires row { row < size_at self.now }
        requires column { column < size_at self.now }
        ensures { result ≡ matrix (costs_at self.now) row column }
    {
        let rows = self.first.sequences() as usize;
        let columns = self.second.sequences() as usize;
        let prices = self.first.sets().len() + 1;
        let others = self.second.sets().len() + 1;
        if row < rows {
            return self.first_plan_entry(row, column);
        }
        let row = row - rows;
        if row < columns {
            return self.second_plan_entry(row, column);
        }
        let row = row - columns;
        if row < prices {
            return self.first_price_entry(row, column);
        }
        let row = row - prices;
        if row < prices {
            return self.first_price_entry(row, column).neg();
        }
        let row = row - prices;
        if row < others {
            return self.second_price_entry(row, column);
        }
        self.second_price_entry(row - others, column).neg()
    }

    /// The right side of a row.
    #[tactic(auto, unfolding(crate::specs::Problems::right_sides))]
    pub(crate) fn right_entry(&self, row: usize) -> Frac
        requires costs { AreCosts self.now }
        ensures { result ≡ right_sides (costs_at self.now) row }
    {
        let prices = self.first.sets().len() + 1;
        if row < self.first.sequences() as usize {
            return Frac::zero();
        }
        let row = row - self.first.sequences() as usize;
        if row < self.second.sequences() as usize {
            return Frac::zero();
        }
        let row = row - self.second.sequences() as usize;
        if row < prices {
            return plan_right(row).neg();
        }
        let row = row - prices;
        if row < prices {
            return plan_right(row);
        }
        let row = row - prices;
        if row < self.second.sets().len() + 1 {
            return plan_right(row).neg();
        }
        plan_right(row - (self.second.sets().len() + 1))
    }
}
