// The numbers of a row after a pivot, place by place.
ghost use Rattle.std.specs.Prelude.{◌≢◌, ◌+◌, ◌<◌, ◌≤◌, pos, length, All};
ghost use Rattle.frac128.specs.Fraction.{PartFits};
ghost use Rattle.frac128.specs.Steps.{StepFits, IsFirstUnfit};
ghost use Rattle.whole_rows.specs.Lists.{AllPartsFit, IsPlaceNumber, IsShortNumber, place_steps_at};
ghost use Rattle.whole_rows.specs.Rows.{IsRow, from_place};
ghost use Rattle.whole_rows.specs.Shorts.{IsShort};

use crate::arithmetic::{
    combination, product, short_difference, short_times, unfit_combination, unfit_product,
};
use frac128::Unfit;

/// A row that a pivot changes, and the pivot's row, in one list of numbers.
#[derive(Clone, Copy)]
pub(crate) struct RowPair<'a> {
    /// The numbers.
    pub(crate) numbers: &'a [i128],
    /// Where the row begins.
    pub(crate) own: usize,
    /// Where the pivot's row begins.
    pub(crate) first: usize,
    /// The place of the pivot's column in a row, counted from 1.
    pub(crate) column: usize,
    /// How many numbers a row has.
    pub(crate) size: usize,
    ghost own_in: { own + size ≤ length numbers.now },
    ghost first_in: { first + size ≤ length numbers.now },
    ghost column_in: { column < size },
    ghost column_positive: { 0 < column },
    ghost fit: { AllPartsFit numbers.now },
    ghost row: { IsRow size (from_place numbers.now own) },
    ghost pivot_row: { IsRow size (from_place numbers.now first) },
    ghost entry: { from_place numbers.now first column ≢ pos 0 },
}

impl<'a> RowPair<'a> {
    /// The number at a place, before the row is divided.
    pub(crate) fn number_at(self, place: usize, u: i128, v: i128) -> Option<i128>
        requires { place < self.size }
        ensures { let p = self.entry in
            IsPlaceNumber p.numbers.now p.own p.first p.column u v place result }
    {
        let numbers = self.numbers;
        if place == 0 {
            product(numbers[self.own], u)
        } else if place == self.column {
            Some(-product(numbers[self.first], v)?)
        } else {
            combination(numbers[self.own + place], u, numbers[self.first + place], v)
        }
    }

    /// The number at a place, with factors of 64 bits, where the numbers that it comes from have no
    /// more.
    pub(crate) fn short_number(self, place: usize, u: i64, v: i64) -> Option<i128>
        requires place_in { place < self.size }
        requires own_factor { IsShort u }
        requires other_factor { IsShort v }
        ensures { let p = self.entry in
            IsShortNumber p.numbers.now p.own p.first p.column u v place result }
    {
        let numbers = self.numbers;
        if place == 0 {
            return short_times(numbers[self.own], u);
        }
        if place == self.column {
            return Some(-short_times(numbers[self.first], v)?);
        }
        Some(short_difference(
            short_times(numbers[self.own + place], u)?,
            short_times(numbers[self.first + place], v)?,
        ))
    }

    /// The first step at a place that does not fit.
    pub(crate) fn unfit_at(self, place: usize, u: i128, v: i128) -> Unfit
        requires place_in { place < self.size }
        requires own_factor { PartFits u }
        requires other_factor { PartFits v }
        requires unfit { ¬ (All StepFits
            (place_steps_at self.numbers.now self.own self.first self.column u v place)) }
        ensures { let p = self.entry in IsFirstUnfit
            (place_steps_at p.numbers.now p.own p.first p.column u v place) result }
    {
        let numbers = self.numbers;
        if place == 0 {
            unfit_product(numbers[self.own], u)
        } else if place == self.column {
            unfit_product(numbers[self.first], v)
        } else {
            unfit_combination(numbers[self.own + place], u, numbers[self.first + place], v)
        }
    }
}
