// The pivot of all rows, from one list of numbers into another.
ghost use Rattle.std.specs.Prelude.{◌≡◌, ◌≢◌, ◌+◌, ◌*◌, ◌<◌, ◌≤◌, ◌<ℤ◌, pos, nat_abs, length, IfErr, IfSome, OnOk, IsTrue, All};
ghost use Rattle.std.specs.Int.{◌∣◌};
ghost use Rattle.rational.specs.Gcd.{gcd as gcd_of, div_ℤ};
ghost use Rattle.frac128.specs.Fraction.{PartFits};
ghost use Rattle.whole_rows.specs.Lists.{AgreeOutside, AllPartsFit, AreOthersPivoted, AreRows, IsPivotAt, IsPivotedAt, IsPivotedRowAt, RowFits, row_steps_at, steps_of_row, steps_of_rows};
ghost use Rattle.whole_rows.specs.PivotedRows.{IsPrimitivePart};
ghost use Rattle.whole_rows.specs.Pivots.{other_factor, own_factor, signed_by};
ghost use Rattle.whole_rows.specs.Rows.{IsGreatestDivisor, from_place};
ghost use Rattle.frac128.specs.Steps.{StepFits, IsFirstUnfit};

use crate::arithmetic::{exact_quotient, short_factor};
use crate::divisors::Divisor;
use crate::places::RowPair;
use crate::rows::{
    common_divisor, copy_row, divide_row, write_combination, write_divided, write_turned,
};
use frac128::{Unfit, gcd};

// A number times the sign of p, which is 1 where p is 0.
fn times_sign(p: i128, n: i128) -> i128
    requires { PartFits n }
    ensures value { result ≡ signed_by p n }
    ensures fits { PartFits result }
{
    if p < 0 { -n } else { n }
}

// The greatest common divisor of an entry and another number.
pub(crate) fn common_part(p: i128, k: i128) -> i128
    requires entry { p ≢ pos 0 }
    requires fits { PartFits p }
    ensures value { result ≡ pos (gcd_of (nat_abs p) (nat_abs k)) }
    ensures positive { pos 0 <ℤ result }
{
    gcd(p.unsigned_abs(), k.unsigned_abs()) as i128
}

// A number times the sign of p, divided.
fn factor(p: i128, n: i128, common: i128) -> i128
    requires positive { pos 0 <ℤ common }
    requires fits { PartFits n }
    requires divides { nat_abs common ∣ nat_abs n }
    ensures value { result ≡ div_ℤ (signed_by p n) (nat_abs common) }
    ensures fits { PartFits result }
{
    exact_quotient(times_sign(p, n), common)
}

// What a row is multiplied by, and the multiple of the pivot's row that is then taken away: of an
// entry and the row's number in its column.
fn factors(p: i128, k: i128) -> (i128, i128)
    requires entry { p ≢ pos 0 }
    requires entry_fits { PartFits p }
    requires number_fits { PartFits k }
    ensures own { result.0 ≡ own_factor p k }
    ensures own_fits { PartFits result.0 }
    ensures other { result.1 ≡ other_factor p k }
    ensures other_fits { PartFits result.1 }
{
    let common = common_part(p, k);
    (factor(p, p, common), factor(p, k, common))
}

// The greatest common divisor of a row.
fn row_divisor(numbers: &[i128], own: usize, size: usize) -> i128
    requires own_in { own + size ≤ length numbers.now }
    requires some { 0 < size }
    requires positive { pos 0 <ℤ from_place numbers.now own 0 }
    requires fit { RowFits size (from_place numbers.now own) }
    ensures positive { pos 0 <ℤ result }
    ensures divisor { IsGreatestDivisor (from_place numbers.now own) size (nat_abs result) }
{
    common_divisor(numbers, own, size) as i128
}

// Divides a row by its greatest common divisor.
fn reduce_row(numbers: &mut [i128], own: usize, size: usize)
    requires own_in { own + size ≤ length numbers.old }
    requires some { 0 < size }
    requires positive { pos 0 <ℤ from_place numbers.old own 0 }
    requires fit { RowFits size (from_place numbers.old own) }
    ensures length { length numbers.new ≡ length numbers.old }
    ensures kept { AgreeOutside own size numbers.new numbers.old }
    ensures reduced { IsPrimitivePart
        size (from_place numbers.old own) (from_place numbers.new own) }
{
    let common = row_divisor(numbers, own, size);
    if common != 1 {
        divide_row(numbers, own, size, common);
    }
}

// The greatest common divisor of the coefficients of two rows' basic variables, where they have no
// more than 64 bits. It mostly divides the one row times the entry, less the other times the
// number.
fn probable_divisor(a: i128, b: i128) -> Option<u64>
    ensures { IfSome result (λ g. 0 < g) }
{
    match u64::try_from(gcd(a.unsigned_abs(), b.unsigned_abs())) {
        Ok(common) if common > 0 => Some(common),
        _ => None,
    }
}

// Writes a row that is not the pivot's, where all numbers have no more than 64 bits and a guess of
// a common divisor is one. The factors are the entry and the row's number in the column as they
// are, so that no greatest common divisor of the two is sought.
fn write_short(pair: RowPair, spare: &mut [i128]) -> bool
    requires spare_in { pair.own + pair.size ≤ length spare.old }
    requires number { from_place pair.numbers.now pair.own pair.column ≢ pos 0 }
    ensures length { length spare.new ≡ length spare.old }
    ensures kept { AgreeOutside pair.entry.own pair.entry.size spare.new spare.old }
    ensures written { let p = pair.entry in IsTrue result
        → IsPivotedRowAt p.numbers.now p.own p.first p.column p.size spare.new }
    ensures fits { let p = pair.entry in IsTrue result
        → All StepFits (row_steps_at p.numbers.now p.own p.first p.column p.size) }
{
    let numbers = pair.numbers;
    let entry = numbers[pair.first + pair.column];
    let number = numbers[pair.own + pair.column];
    let Some(u) = short_factor(times_sign(entry, entry)) else {
        return false;
    };
    let Some(v) = short_factor(times_sign(entry, number)) else {
        return false;
    };
    let Some(common) = probable_divisor(numbers[pair.own], numbers[pair.first]) else {
        return false;
    };
    if !write_divided(pair, spare, u, v, Divisor::new(common)) {
        return false;
    }
    reduce_row(spare, pair.own, pair.size);
    true
}

// Writes a row that is not the pivot's.
fn write_other(pair: RowPair, spare: &mut [i128]) -> Result<(), Unfit>
    requires spare_in { pair.own + pair.size ≤ length spare.old }
    ensures length { length spare.new ≡ length spare.old }
    ensures kept { AgreeOutside pair.entry.own pair.entry.size spare.new spare.old }
    ensures written { let p = pair.entry in OnOk result
        (IsPivotedRowAt p.numbers.now p.own p.first p.column p.size spare.new) }
    ensures fits { let p = pair.entry in OnOk result
        (All StepFits (row_steps_at p.numbers.now p.own p.first p.column p.size)) }
    ensures unfit { let p = pair.entry in IfErr result
        (IsFirstUnfit (row_steps_at p.numbers.now p.own p.first p.column p.size)) }
{
    let number = pair.numbers[pair.own + pair.column];
    if number == 0 {
        copy_row(pair.numbers, spare, pair.own, pair.size);
        return Ok(());
    }
    if write_short(pair, spare) {
        return Ok(());
    }
    let entry = pair.numbers[pair.first + pair.column];
    let (u, v) = factors(entry, number);
    write_combination(pair, spare, u, v)?;
    reduce_row(spare, pair.own, pair.size);
    Ok(())
}

// A pivot of rows in a list of numbers.
#[derive(Clone, Copy)]
struct Pivot<'a> {
    numbers: &'a [i128],
    // How many rows there are, and how many numbers each has.
    rows: usize,
    size: usize,
    // The pivot's row, counted from 0, and the place of its column in each row, counted from 1.
    row: usize,
    column: usize,
    ghost row_in: { row < rows },
    ghost column_in: { column < size },
    ghost column_positive: { 0 < column },
    ghost shape: { length numbers.now ≡ rows * size },
    ghost entry: { from_place numbers.now (row * size) column ≢ pos 0 },
    ghost are_rows: { AreRows rows size numbers.now },
    ghost fit: { AllPartsFit numbers.now },
}

// Writes what the pivot makes of one row.
fn write_row(pivot: Pivot, spare: &mut [i128], i: usize) -> Result<(), Unfit>
    requires own_in { i < pivot.rows }
    requires spare_shape { length spare.old ≡ pivot.rows * pivot.size }
    ensures length { length spare.new ≡ length spare.old }
    ensures kept { AgreeOutside (i * pivot.entry.size) pivot.entry.size spare.new spare.old }
    ensures pivot_row { let p = pivot.entry in OnOk result
        (i ≡ p.row → IsPivotAt p.numbers.now p.size i p.column spare.new) }
    ensures others { let p = pivot.entry in OnOk result
        (i ≢ p.row → IsPivotedAt p.numbers.now p.size p.row p.column spare.new i) }
    ensures fits { let p = pivot.entry in OnOk result
        (All StepFits (steps_of_row p.numbers.now p.size p.row p.column i)) }
    ensures unfit { let p = pivot.entry in IfErr result
        (IsFirstUnfit (steps_of_row p.numbers.now p.size p.row p.column i)) }
{
    let own = i * pivot.size;
    if i == pivot.row {
        write_turned(pivot.numbers, spare, own, pivot.column, pivot.size);
        return Ok(());
    }
    let pair = RowPair {
        numbers: pivot.numbers,
        own,
        first: pivot.row * pivot.size,
        column: pivot.column,
        size: pivot.size,
    };
    write_other(pair, spare)
}

/// Writes what the pivot makes of rows of so many numbers. `row` is the pivot's row, and `column`
/// the place of its column in each row. `numbers` and `spare` have `rows` rows of `size` numbers:
/// the coefficient of the basic variable, one per column, the right side. `row` counts from 0,
/// `column` from 1.
///
/// # Errors
///
/// The first step that does not fit, in the order of the rows and in each row in the order of its
/// places. What `spare` then holds is not said.
pub fn write_pivot(
    numbers: &[i128],
    spare: &mut [i128],
    rows: usize,
    size: usize,
    row: usize,
    column: usize,
) -> Result<(), Unfit>
    requires row_in { row < rows }
    requires column_in { column < size }
    requires column_positive { 0 < column }
    requires shape { length numbers.now ≡ rows * size }
    requires spare_shape { length spare.old ≡ rows * size }
    requires entry { from_place numbers.now (row * size) column ≢ pos 0 }
    requires are_rows { AreRows rows size numbers.now }
    requires fit { AllPartsFit numbers.now }
    ensures length { length spare.new ≡ length spare.old }
    ensures pivot_row { OnOk result (IsPivotAt numbers.now size row column spare.new) }
    ensures others { OnOk result (AreOthersPivoted numbers.now size row column rows spare.new) }
    ensures fits { OnOk result (All StepFits (steps_of_rows numbers.now size row column rows)) }
    ensures unfit { IfErr result (IsFirstUnfit (steps_of_rows numbers.now size row column rows)) }
{
    let pivot = Pivot {
        numbers,
        rows,
        size,
        row,
        column,
    };
    for i in 0..rows {
        write_row(pivot, spare, i)?;
    }
    Ok(())
}
