// The rows of a system as whole numbers.
ghost use Rattle.std.specs.Prelude.{◌≡◌, ◌≢◌, ◌+◌, ◌*◌, ◌/◌, ◌≤◌, ◌<ℤ◌, pos, nat_abs, length, IfOk, IfErr, OnOk, Ok, Err, All};
ghost use Rattle.rational.specs.Gcd.{gcd as gcd_of};
ghost use Rattle.frac128.specs.Fraction.{PartFits};
ghost use Rattle.whole_rows.specs.Lists.{AgreeOutside, AreStartRows, IsStartRowAt};
ghost use Rattle.whole_rows.specs.StartRows.{IsCommonDenominator, cells_from, common_to, denominator_steps, over_steps, start_rows_fit, start_row_steps};
ghost use Rattle.frac128.specs.Steps.{StepFits, IsFirstUnfit};

use crate::arithmetic::{exact_quotient, product, unfit_product};
use crate::pivots::common_part;
use frac128::{Frac, Unfit};

// What a denominator adds to a common one.
fn added(common: i128, den: i128) -> i128
    requires common { common ≢ pos 0 }
    requires common_fits { PartFits common }
    requires den { pos 0 <ℤ den }
    requires den_fits { PartFits den }
    ensures value { result ≡ pos (nat_abs den / gcd_of (nat_abs common) (nat_abs den)) }
    ensures fits { PartFits result }
{
    exact_quotient(den, common_part(common, den))
}

// The least common denominator of a row.
fn common_denominator(cells: &[Frac], from: usize, count: usize) -> Result<i128, Unfit>
    requires row_in { from + count ≤ length cells.now }
    ensures value { IfOk result (IsCommonDenominator count (cells_from cells.now from)) }
    ensures unfit { IfErr result
        (IsFirstUnfit (denominator_steps (cells_from cells.now from) count)) }
{
    let mut common = 1;
    for k in 0..count {
        let part = added(common, cells[from + k].den());
        let Some(next) = product(common, part) else {
            return Err(unfit_product(common, part));
        };
        common = next;
    }
    Ok(common)
}

// Writes the numbers of a row over its common denominator.
fn write_over(
    cells: &[Frac],
    numbers: &mut [i128],
    from: usize,
    to: usize,
    count: usize,
    common: i128,
) -> Result<(), Unfit>
    requires row_in { from + count ≤ length cells.now }
    requires to_in { to + (count + 1) ≤ length numbers.old }
    requires common { common ≡ pos (common_to (cells_from cells.now from) count) }
    requires fits { PartFits common }
    ensures length { length numbers.new ≡ length numbers.old }
    ensures kept { AgreeOutside to (count + 1) numbers.new numbers.old }
    ensures written { OnOk result (IsStartRowAt cells.now from count numbers.new to) }
    ensures fits { OnOk result (All StepFits (over_steps count (cells_from cells.now from))) }
    ensures unfit { IfErr result (IsFirstUnfit (over_steps count (cells_from cells.now from))) }
{
    numbers[to] = common;
    for k in 0..count {
        let cell = cells[from + k];
        let part = exact_quotient(common, cell.den());
        let Some(number) = product(cell.num(), part) else {
            return Err(unfit_product(cell.num(), part));
        };
        numbers[to + (k + 1)] = number;
    }
    Ok(())
}

// Writes a row of a system as whole numbers.
fn write_start_row(
    cells: &[Frac],
    numbers: &mut [i128],
    from: usize,
    to: usize,
    count: usize,
) -> Result<(), Unfit>
    requires row_in { from + count ≤ length cells.now }
    requires to_in { to + (count + 1) ≤ length numbers.old }
    ensures length { length numbers.new ≡ length numbers.old }
    ensures kept { AgreeOutside to (count + 1) numbers.new numbers.old }
    ensures written { OnOk result (IsStartRowAt cells.now from count numbers.new to) }
    ensures fits { OnOk result (All StepFits (start_row_steps count (cells_from cells.now from))) }
    ensures unfit { IfErr result
        (IsFirstUnfit (start_row_steps count (cells_from cells.now from))) }
{
    let common = common_denominator(cells, from, count)?;
    write_over(cells, numbers, from, to, count, common)
}

/// A row, counted from 0, and its first step that does not fit.
#[derive(Drop)]
pub struct UnfitRow {
    /// The row.
    pub row: usize,
    /// Its first step that does not fit.
    pub unfit: Unfit,
}

/// Writes the rows of a system as whole numbers, each over its least common denominator. `cells`
/// has `rows` rows of `count` fractions, the right side last in each; `numbers` has `rows` rows of
/// `count + 1` numbers, the common denominator first.
///
/// # Errors
///
/// The first row with a step that does not fit, and that step. What `numbers` then holds is not
/// said.
pub fn write_starts(
    cells: &[Frac],
    numbers: &mut [i128],
    rows: usize,
    count: usize,
) -> Result<(), UnfitRow>
    requires cells_shape { length cells.now ≡ rows * count }
    requires shape { length numbers.old ≡ rows * (count + 1) }
    ensures length { length numbers.new ≡ length numbers.old }
    ensures written { OnOk result (AreStartRows cells.now rows count numbers.new) }
    ensures fits { OnOk result (start_rows_fit rows count cells.now (Ok tt)) }
    ensures unfit { IfErr result (λ e. start_rows_fit rows count cells.now (Err (e.row, e.unfit))) }
{
    for i in 0..rows {
        match write_start_row(cells, numbers, i * count, i * (count + 1), count) {
            Ok(()) => {}
            Err(unfit) => return Err(UnfitRow { row: i, unfit }),
        }
    }
    Ok(())
}
