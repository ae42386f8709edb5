// The lexicographic row of a column.
ghost use Rattle.std.specs.Prelude.{◌≡◌, pos, ◌<ℤ◌, ◌≤ℤ◌, true, false};

use std::cmp::Ordering;
use whole_rows::compare_quotients;

/// The lists of a tableau, from which the keys of its rows are read.
#[derive(Clone, Copy)]
pub(crate) struct Keys<'a> {
    /// The basic variables of the start.
    pub(crate) starts: &'a [u32],
    /// The column of each of them, counted from 1, and 0 where it is basic.
    pub(crate) columns: &'a [u32],
    /// The basic variables, row by row.
    pub(crate) basics: &'a [u32],
    /// The nonbasic variables, column by column.
    pub(crate) nonbasics: &'a [u32],
    /// How many rows are rated.
    pub(crate) rated: usize,
    /// The numbers of the rows, as a `Tableau` keeps them.
    pub(crate) numbers: &'a [i128],
}

// Whether a number is above 0.
fn is_positive(n: i128) -> bool
    ensures positive { result ≡ true → pos 0 <ℤ n }
    ensures otherwise { result ≡ false → n ≤ℤ pos 0 }
{
    n > 0
}

impl<'a> Keys<'a> {
    ghost use Rattle.std.specs.Prelude.{suc, ◌<◌, ◌≤◌, length};
    ghost use Rattle.lex_tableau.specs.Keys.{AreKeys, IsKeyNumber, IsPositiveIn, tableau_in};
    ghost use Rattle.lex_tableau.specs.Ratio.{Compares, IsBest, IsRatioRow, LexCompares, quotient_of};
    ghost use Rattle.lex_tableau.specs.Rows.{tableau};

    // The number that stands for an entry of a row's key: at place 0 for the right side, then for
    // the coefficients of the start's basic variables.
    fn number(&self, row: usize, place: usize) -> i128
        requires keys { AreKeys self.now }
        requires row_in { row < length self.now.basics.now }
        requires place_in { place ≤ length self.now.starts.now }
        ensures { IsKeyNumber (tableau_in self.now) row place result }
    {
        let first = row * (self.nonbasics.len() + 2);
        if place == 0 {
            return self.numbers[first + (self.nonbasics.len() + 1)];
        }
        let column = self.columns[place - 1] as usize;
        if column > 0 {
            self.numbers[first + column]
        } else if self.basics[row] == self.starts[place - 1] {
            self.numbers[first]
        } else {
            0
        }
    }

    // The order of two rows' quotients at a place.
    fn compare_at(&self, column: usize, row: usize, best: usize, place: usize) -> Ordering
        requires keys { AreKeys self.now }
        requires row_in { row < length self.now.basics.now }
        requires best_in { best < length self.now.basics.now }
        requires column_in { column < length self.now.nonbasics.now }
        requires place_in { place ≤ length self.now.starts.now }
        requires positive { IsPositiveIn (tableau_in self.now) row column }
        requires best_positive { IsPositiveIn (tableau_in self.now) best column }
        ensures { let t = tableau_in self.now in
            Compares (quotient_of t.starts (tableau t) column row place)
            (quotient_of t.starts (tableau t) column best place) result }
    {
        let size = self.nonbasics.len() + 2;
        compare_quotients(
            self.number(row, place),
            self.numbers[row * size + (column + 1)],
            self.number(best, place),
            self.numbers[best * size + (column + 1)],
        )
    }

    // The order of two rows' quotients, place by place.
    fn compare_rows(&self, column: usize, row: usize, best: usize) -> Ordering
        requires keys { AreKeys self.now }
        requires row_in { row < length self.now.basics.now }
        requires best_in { best < length self.now.basics.now }
        requires column_in { column < length self.now.nonbasics.now }
        requires positive { IsPositiveIn (tableau_in self.now) row column }
        requires best_positive { IsPositiveIn (tableau_in self.now) best column }
        ensures { let t = tableau_in self.now in
            LexCompares (suc t.rated) (quotient_of t.starts (tableau t) column row)
            (quotient_of t.starts (tableau t) column best) result }
    {
        for place in 0..self.rated + 1 {
            let order = self.compare_at(column, row, best, place);
            if order.is_ne() {
                return order;
            }
        }
        Ordering::Equal
    }

    // The best row after one more.
    fn next_best(&self, column: usize, row: usize, best: Option<usize>) -> Option<usize>
        requires keys { AreKeys self.now }
        requires row_in { row < self.now.rated }
        requires column_in { column < length self.now.nonbasics.now }
        requires best { let t = tableau_in self.now in
            IsBest row t.rated t.starts (tableau t) column best }
        ensures { let t = tableau_in self.now in
            IsBest (suc row) t.rated t.starts (tableau t) column result }
    {
        if !is_positive(self.numbers[row * (self.nonbasics.len() + 2) + (column + 1)]) {
            return best;
        }
        let Some(old) = best else {
            return Some(row);
        };
        match self.compare_rows(column, row, old) {
            Ordering::Less => Some(row),
            _ => Some(old),
        }
    }

    /// The lexicographic row of a column; `None` where no rated row has a positive entry there.
    pub(crate) fn ratio_row(&self, column: usize) -> Option<usize>
        requires keys { AreKeys self.now }
        requires column_in { column < length self.now.nonbasics.now }
        ensures { IsRatioRow (tableau_in self.now) column result }
    {
        let mut best = None;
        for row in 0..self.rated {
            best = self.next_best(column, row, best);
        }
        best
    }
}
