// Rows of whole numbers, in a list of them.
ghost use Rattle.std.specs.Prelude.{◌≡◌, ◌+◌, ◌<◌, ◌≤◌, ℕ, ◌<ℤ◌, pos, nat_abs, length, IfErr, OnOk, IsTrue, All};
ghost use Rattle.std.specs.Int.{◌∣◌};
ghost use Rattle.frac128.specs.Fraction.{PartFits};
ghost use Rattle.whole_rows.specs.Lists.{AgreeOutside, AllPartsFit, AreSame, IsDivided, IsUndividedRow, IsDividedRow, RowFits, RowFitsShort, steps_at};
ghost use Rattle.whole_rows.specs.Pivots.{other_factor, own_factor, turned};
ghost use Rattle.whole_rows.specs.Rows.{IsGreatestDivisor, from_place};
ghost use Rattle.whole_rows.specs.Shorts.{IsShort};
ghost use Rattle.frac128.specs.Steps.{StepFits, IsFirstUnfit};

use crate::divisors::{Divisor, quotient_by};
use crate::places::RowPair;
use frac128::{Unfit, gcd};

// The greatest common divisor of a row. Where it is found to be 1, the rest is not looked at.
pub(crate) fn common_divisor(numbers: &[i128], own: usize, size: usize) -> u128
    requires own_in { own + size ≤ length numbers.now }
    requires some { 0 < size }
    requires positive { pos 0 <ℤ from_place numbers.now own 0 }
    requires fit { RowFits size (from_place numbers.now own) }
    ensures { IsGreatestDivisor (from_place numbers.now own) size result }
{
    let mut common = numbers[own].unsigned_abs();
    for place in 1..size {
        if common == 1 {
            return 1;
        }
        common = gcd(common, numbers[own + place].unsigned_abs());
    }
    common
}

// Divides a row.
pub(crate) fn divide_row(numbers: &mut [i128], own: usize, size: usize, by: i128)
    requires own_in { own + size ≤ length numbers.old }
    requires positive { pos 0 <ℤ by }
    requires fit { RowFits size (from_place numbers.old own) }
    requires divides { (p : ℕ) → p < size → nat_abs by ∣ nat_abs (from_place numbers.old own p) }
    ensures length { length numbers.new ≡ length numbers.old }
    ensures kept { AgreeOutside own size numbers.new numbers.old }
    ensures divided { IsDivided size by (from_place numbers.new own) (from_place numbers.old own) }
    ensures fit { RowFits size (from_place numbers.new own) }
{
    let divisor = Divisor::of(by);
    for place in 0..size {
        numbers[own + place] = quotient_by(numbers[own + place], by, divisor);
    }
}

// Writes a row times u, less the pivot's row times v.
pub(crate) fn write_combination(
    pair: RowPair,
    spare: &mut [i128],
    u: i128,
    v: i128,
) -> Result<(), Unfit>
    requires spare_in { pair.own + pair.size ≤ length spare.old }
    requires own_factor { PartFits u }
    requires other_factor { PartFits v }
    ensures length { length spare.new ≡ length spare.old }
    ensures kept { AgreeOutside pair.entry.own pair.entry.size spare.new spare.old }
    ensures written { let p = pair.entry in OnOk result
        (IsUndividedRow p.numbers.now p.own p.first p.column u v p.size spare.new) }
    ensures fits { let p = pair.entry in OnOk result
        (All StepFits (steps_at p.numbers.now p.own p.first p.column u v p.size)) }
    ensures unfit { let p = pair.entry in IfErr result
        (IsFirstUnfit (steps_at p.numbers.now p.own p.first p.column u v p.size)) }
{
    for place in 0..pair.size {
        let Some(number) = pair.number_at(place, u, v) else {
            return Err(pair.unfit_at(place, u, v));
        };
        spare[pair.own + place] = number;
    }
    Ok(())
}

// Writes a row times u, less the pivot's row times v, divided. It gives up where a number has more
// than 64 bits or is not divided.
pub(crate) fn write_divided(pair: RowPair, spare: &mut [i128], u: i64, v: i64, by: Divisor) -> bool
    requires spare_in { pair.own + pair.size ≤ length spare.old }
    requires own_factor { IsShort u }
    requires other_factor { IsShort v }
    ensures length { length spare.new ≡ length spare.old }
    ensures kept { AgreeOutside pair.entry.own pair.entry.size spare.new spare.old }
    ensures divided { let p = pair.entry in IsTrue result
        → IsDividedRow by.value p.numbers.now p.own p.first p.column u v p.size spare.new }
    ensures fits { let p = pair.entry in IsTrue result
        → RowFitsShort p.numbers.now p.own p.first p.column p.size }
{
    for place in 0..pair.size {
        let Some(number) = pair.short_number(place, u, v) else {
            return false;
        };
        let Some(quotient) = by.quotient(number) else {
            return false;
        };
        spare[pair.own + place] = quotient;
    }
    true
}

// Copies a row.
pub(crate) fn copy_row(numbers: &[i128], spare: &mut [i128], own: usize, size: usize)
    requires own_in { own + size ≤ length numbers.now }
    requires spare_in { own + size ≤ length spare.old }
    ensures length { length spare.new ≡ length spare.old }
    ensures kept { AgreeOutside own size spare.new spare.old }
    ensures written { AreSame size (from_place spare.new own) (from_place numbers.now own) }
{
    for place in 0..size {
        spare[own + place] = numbers[own + place];
    }
}

// A number of the pivot's row.
fn turned_number(numbers: &[i128], first: usize, column: usize, place: usize) -> i128
    requires place_in { first + place < length numbers.now }
    requires column_in { first + column < length numbers.now }
    requires fit { AllPartsFit numbers.now }
    ensures value { result ≡ turned (from_place numbers.now first) column place }
    ensures fits { PartFits result }
{
    let number = if place == 0 {
        numbers[first + column]
    } else if place == column {
        numbers[first]
    } else {
        numbers[first + place]
    };
    if numbers[first + column] < 0 {
        -number
    } else {
        number
    }
}

// Writes the pivot's row.
pub(crate) fn write_turned(
    numbers: &[i128],
    spare: &mut [i128],
    first: usize,
    column: usize,
    size: usize,
)
    requires first_in { first + size ≤ length numbers.now }
    requires spare_in { first + size ≤ length spare.old }
    requires column_in { column < size }
    requires fit { AllPartsFit numbers.now }
    ensures length { length spare.new ≡ length spare.old }
    ensures kept { AgreeOutside first size spare.new spare.old }
    ensures written { AreSame size (from_place spare.new first)
        (turned (from_place numbers.now first) column) }
    ensures fit { RowFits size (from_place spare.new first) }
{
    for place in 0..size {
        spare[first + place] = turned_number(numbers, first, column, place);
    }
}
