// Tableaux of whole numbers.
ghost use Rattle.std.specs.Prelude.{◌≡◌, ◌≢◌, ◌+◌, ◌<◌, ◌<ℤ◌, pos, length, IfOk, IfErr, OnOk, All};
ghost use Rattle.answers.specs.Answers.{Gives};
ghost use Rattle.rational.specs.Rational.{zero_ℚ};
ghost use Rattle.linear_systems.specs.Rows.{basic_solution};
ghost use Rattle.lex_tableau.specs.PivotStops.{IsPivotStop};
ghost use Rattle.lex_tableau.specs.Pivots.{HasOtherRows, HasPivotRow, steps_of_pivot};
ghost use Rattle.lex_tableau.specs.Ratio.{IsRatioRow, KeepsPositiveKeys};
ghost use Rattle.lex_tableau.specs.Rows.{HasSolutionsOf, IsPivotOf, IsTableau, tableau, with_variables_exchanged};
ghost use Rattle.lex_tableau.specs.StartStops.{start_in};
ghost use Rattle.lex_tableau.specs.declared.tableau.StartStop.TheVariants as start_stops;
ghost use Rattle.lists.specs.Listed.{IsIndexOf};
ghost use Rattle.whole_rows.specs.Lists.{AllPartsFit};
ghost use Rattle.whole_rows.specs.Rows.{fraction as fraction_of, from_place};
ghost use Rattle.frac128.specs.Steps.{StepFits, IsFirstUnfit};
ghost use Rattle.rational.specs.Tests.{sign_of};

use crate::columns::{exchange_columns, no_columns};
use crate::pivot_count::PivotCount;
use crate::ratio::Keys;
use crate::system::System;
use answers::Memory;
use frac128::{Frac, Unfit};
use std::alloc::Global;
use std::marker::Model;
use std::mem;
use std::sync::ledger::Ledger;
use whole_rows::{fraction, write_pivot, write_starts};

/// A system of linear equations after pivots. Row i says that its basic variable plus the sum of
/// its entries times the nonbasic variables is its right side. Contracts see it as whole numbers,
/// and `tableau` of them is the tableau of fractions. Rows and columns count from 0.
#[derive(Debug, Drop)]
pub struct Tableau {
    /// The basic variables of the start.
    starts: Vec<u32>,
    /// The column of each of `starts`, counted from 1, and 0 where it is basic.
    columns: Vec<u32>,
    /// The basic variables, row by row.
    basics: Vec<u32>,
    /// The nonbasic variables, column by column.
    nonbasics: Vec<u32>,
    /// How many of the first rows take part in ratio tests.
    rated: usize,
    /// Row by row the denominator of the row, its numerators, column by column, and that of its
    /// right side: two numbers more than there are columns.
    numbers: Vec<i128>,
}

impl Model for Tableau {
    ghost use Rattle.lex_tableau.specs.Columns.{AreColumnsOf};
    ghost use Rattle.lex_tableau.specs.Rows.{WholeTableau, whole_tableau, IsTableau};

    ghost Value = { WholeTableau };

    ghost view = { λ t.
        whole_tableau t.starts.items t.basics.items t.nonbasics.items t.rated t.numbers.items };

    ghost invariant = { λ t.
        IsTableau (whole_tableau
        t.starts.items t.basics.items t.nonbasics.items t.rated t.numbers.items)
        × AreColumnsOf t.nonbasics.items t.starts.items t.columns.items };
}

// The fraction at a place of a row.
fn fraction_at(numbers: &[i128], first: usize, place: usize) -> Frac
    requires place_in { first + place < length numbers.now }
    requires positive { pos 0 <ℤ from_place numbers.now first 0 }
    requires fit { AllPartsFit numbers.now }
    ensures { result ≡ fraction_of (from_place numbers.now first) place }
{
    fraction(numbers[first + place], numbers[first])
}

// The sign of the fraction at a place of a row.
fn sign_at(numbers: &[i128], first: usize, place: usize) -> i8
    requires place_in { first + place < length numbers.now }
    requires positive { pos 0 <ℤ from_place numbers.now first 0 }
    requires fit { AllPartsFit numbers.now }
    ensures { result ≡ sign_of (fraction_of (from_place numbers.now first) place) }
{
    numbers[first + place].signum() as i8
}

// A copy of a list, written over what is in a room.
fn copied(room: Vec<u32>, xs: &[u32]) -> Result<Vec<u32>, Memory>
    ensures { IfOk result (λ v. v.items ≡ xs.now) }
{
    let mut copy = room;
    copy.clear();
    copy.extend_from_slice(xs)?;
    Ok(copy)
}

/// Why a pivot gives no tableau: its first step that does not fit, or `Memory` where memory ran
/// out.
#[derive(Debug, Drop)]
pub enum PivotStop {
    /// The first step that does not fit.
    Unfit(Unfit),
    /// Memory ran out.
    Memory,
}

impl From<Unfit> for PivotStop {
    ghost use Rattle.std.specs.Prelude.{◌≡◌};
    ghost use Rattle.lex_tableau.specs.declared.tableau.PivotStop.TheVariants as pivot_stops;

    ghost from_gives = { λ unfit e. e ≡ pivot_stops.Unfit unfit };

    fn from(unfit: Unfit) -> PivotStop {
        PivotStop::Unfit(unfit)
    }
}

impl From<Memory> for PivotStop {
    ghost use Rattle.std.specs.Prelude.{◌≡◌};
    ghost use Rattle.lex_tableau.specs.declared.tableau.PivotStop.TheVariants as pivot_stops;

    ghost from_gives = { λ _ e. e ≡ pivot_stops.Memory };

    fn from(_memory: Memory) -> PivotStop {
        PivotStop::Memory
    }
}

/// Why there is no start: a row, counted from 0, with its first step that does not fit; or `Memory`
/// where memory ran out.
#[derive(Debug, Drop)]
pub enum StartStop {
    /// A step of a row does not fit.
    Unfit {
        /// The row.
        row: u32,
        /// Its first such step.
        unfit: Unfit,
    },
    /// Memory ran out.
    Memory,
}

impl From<Memory> for StartStop {
    ghost use Rattle.std.specs.Prelude.{◌≡◌};
    ghost use Rattle.lex_tableau.specs.declared.tableau.StartStop.TheVariants as start_stops;

    ghost from_gives = { λ _ e. e ≡ start_stops.Memory };

    fn from(_memory: Memory) -> StartStop {
        StartStop::Memory
    }
}

// The lists of a tableau that is spent, which are written over.
#[derive(Drop)]
struct Room {
    starts: Vec<u32>,
    columns: Vec<u32>,
    basics: Vec<u32>,
    nonbasics: Vec<u32>,
    numbers: Vec<i128>,
}

impl Room {
    // The lists of this tableau, and empty ones where there is none.
    fn of(alloc: Global, spent: Option<Tableau>) -> Room {
        match spent {
            Some(tableau) => Room {
                starts: tableau.starts,
                columns: tableau.columns,
                basics: tableau.basics,
                nonbasics: tableau.nonbasics,
                numbers: tableau.numbers,
            },
            None => Room {
                starts: Vec::new(alloc),
                columns: Vec::new(alloc),
                basics: Vec::new(alloc),
                nonbasics: Vec::new(alloc),
                numbers: Vec::new(alloc),
            },
        }
    }
}

// So many numbers: those of a room where they are as many, and else zeros.
fn filled(alloc: Global, room: Vec<i128>, count: usize) -> Result<Vec<i128>, Memory>
    ensures { IfOk result (λ v. length v.items ≡ count) }
{
    if room.len() == count {
        return Ok(room);
    }
    zeros(alloc, count)
}

// So many zeros.
fn zeros(alloc: Global, count: usize) -> Result<Vec<i128>, Memory>
    ensures { IfOk result (λ v. length v.items ≡ count) }
{
    Ok(vec![in alloc; 0; count]?)
}

impl Tableau {
    /// The start of a system: each row over its least common denominator.
    ///
    /// # Errors
    ///
    /// The first step that does not fit, with its row; `Memory` where memory ran out.
    pub fn start(alloc: Global, system: &System) -> Result<Tableau, StartStop>
        ensures { Gives start_stops.Memory (start_in system.now) result }
    {
        let rows = system.basics.len();
        let count = system.nonbasics.len() + 1;
        let Some(total) = rows.checked_mul(count + 1) else {
            return Err(StartStop::Memory);
        };
        let mut numbers = zeros(alloc, total)?;
        let starts = copied(Vec::new(alloc), system.basics.as_slice())?;
        let columns = no_columns(alloc, rows)?;
        let basics = copied(Vec::new(alloc), system.basics.as_slice())?;
        let nonbasics = copied(Vec::new(alloc), system.nonbasics.as_slice())?;
        match write_starts(system.cells.as_slice(), numbers.as_mut_slice(), rows, count) {
            Ok(()) => {}
            Err(stop) => {
                return Err(StartStop::Unfit {
                    row: stop.row as u32,
                    unfit: stop.unfit,
                });
            }
        }
        Ok(Tableau {
            starts,
            columns,
            basics,
            nonbasics,
            rated: system.rated,
            numbers,
        })
    }

    /// The entry of a row in a column.
    pub fn entry(&self, row: usize, col: usize) -> Frac
        requires row_in { row < length self.now.basics }
        requires col_in { col < length self.now.nonbasics }
        ensures value { result ≡ (tableau self.now).cell row col }
        ensures valid { IsTableau self.now }
    {
        fraction_at(
            self.numbers.as_slice(),
            row * (self.nonbasics.len() + 2),
            col + 1,
        )
    }

    /// The sign of the entry of a row in a column: -1, 0 or 1. The fraction is not formed.
    pub fn entry_sign(&self, row: usize, col: usize) -> i8
        requires row_in { row < length self.now.basics }
        requires col_in { col < length self.now.nonbasics }
        ensures value { result ≡ sign_of ((tableau self.now).cell row col) }
        ensures valid { IsTableau self.now }
    {
        sign_at(
            self.numbers.as_slice(),
            row * (self.nonbasics.len() + 2),
            col + 1,
        )
    }

    /// The right side of a row.
    pub fn right(&self, row: usize) -> Frac
        requires { row < length self.now.basics }
        ensures value { result ≡ (tableau self.now).right row }
        ensures valid { IsTableau self.now }
    {
        fraction_at(
            self.numbers.as_slice(),
            row * (self.nonbasics.len() + 2),
            self.nonbasics.len() + 1,
        )
    }

    /// The sign of the right side of a row: -1, 0 or 1. The fraction is not formed.
    pub fn right_sign(&self, row: usize) -> i8
        requires { row < length self.now.basics }
        ensures value { result ≡ sign_of ((tableau self.now).right row) }
        ensures valid { IsTableau self.now }
    {
        sign_at(
            self.numbers.as_slice(),
            row * (self.nonbasics.len() + 2),
            self.nonbasics.len() + 1,
        )
    }

    /// The basic variables, row by row.
    pub fn basics(&self) -> &[u32]
        ensures { result.now ≡ self.now.basics }
    {
        self.basics.as_slice()
    }

    /// The nonbasic variables, column by column.
    pub fn nonbasics(&self) -> &[u32]
        ensures { result.now ≡ self.now.nonbasics }
    {
        self.nonbasics.as_slice()
    }

    /// The basic variable of a row.
    pub fn basic(&self, row: usize) -> u32
        requires { row < length self.now.basics }
        ensures { result ≡ (tableau self.now).basic row }
    {
        self.basics[row]
    }

    /// The nonbasic variable of a column.
    pub fn nonbasic(&self, col: usize) -> u32
        requires { col < length self.now.nonbasics }
        ensures { result ≡ (tableau self.now).nonbasic col }
    {
        self.nonbasics[col]
    }

    /// The column in which a variable is nonbasic, counted from 0; `None` where it stands in none.
    pub fn column_of(&self, variable: u32) -> Option<usize>
        ensures column { IsIndexOf self.now.nonbasics variable result }
        ensures valid { IsTableau self.now }
    {
        self.nonbasics.iter().position(|v| *v == variable)
    }

    /// The lexicographic row of a column: the rated row with a positive entry there whose key,
    /// divided by the entry, is least. A row's key is its right side, and then its coefficients of
    /// the start's rated basic variables in order. `None` exactly where no rated row has a positive
    /// entry in the column. Takes no memory.
    pub fn ratio_row(&self, col: usize) -> Option<usize>
        requires { col < length self.now.nonbasics }
        ensures best { IsRatioRow self.now col result }
        ensures valid { IsTableau self.now }
    {
        let keys = Keys {
            starts: self.starts.as_slice(),
            columns: self.columns.as_slice(),
            basics: self.basics.as_slice(),
            nonbasics: self.nonbasics.as_slice(),
            rated: self.rated,
            numbers: self.numbers.as_slice(),
        };
        keys.ratio_row(col)
    }

    // The tableau whose numbers, which the pivot made, are in a room. Its variables are written
    // over the other lists there.
    fn written_into(&self, room: Room, row: usize, col: usize) -> Result<Tableau, Memory>
        requires row_in { row < self.now.rated }
        requires col_in { col < length self.now.nonbasics }
        requires entry { (tableau self.now).cell row col ≢ zero_ℚ }
        requires shape { length room.numbers.items ≡ length self.now.numbers }
        requires pivot_row { HasPivotRow self.now row col room.numbers.items }
        requires others { HasOtherRows self.now row col room.numbers.items }
        ensures pivot { IfOk result (IsPivotOf self.now row col) }
        ensures solutions { IfOk result (HasSolutionsOf self.now) }
        ensures keys { IfOk result (KeepsPositiveKeys self.now row col) }
        ensures valid { IfOk result IsTableau }
    {
        let starts = copied(room.starts, self.starts.as_slice())?;
        let mut columns = copied(room.columns, self.columns.as_slice())?;
        let mut basics = copied(room.basics, self.basics.as_slice())?;
        let mut nonbasics = copied(room.nonbasics, self.nonbasics.as_slice())?;
        exchange_columns(
            columns.as_mut_slice(),
            self.starts.as_slice(),
            self.basics.as_slice(),
            self.nonbasics.as_slice(),
            row,
            col,
        );
        let entering = nonbasics[col];
        nonbasics[col] = basics[row];
        basics[row] = entering;
        Ok(Tableau {
            starts,
            columns,
            basics,
            nonbasics,
            rated: self.rated,
            numbers: room.numbers,
        })
    }

    /// The pivot on a rated row and a column, as a new tableau. It counts one pivot, also where it
    /// is refused. A tableau that is spent may be given, so that the new one is written into its
    /// room.
    ///
    /// # Errors
    ///
    /// The first step that does not fit, in the order of the rows and in each of the coefficient of
    /// the basic variable, the columns and the right side; `Memory` where memory ran out.
    pub fn pivoted<L: Ledger>(
        &self,
        alloc: Global,
        spent: Option<Tableau>,
        row: usize,
        col: usize,
        pivots: &mut PivotCount<L>,
    ) -> Result<Tableau, PivotStop>
        requires row_in { row < self.now.rated }
        requires col_in { col < length self.now.nonbasics }
        requires entry { (tableau self.now).cell row col ≢ zero_ℚ }
        ensures pivot { IfOk result (IsPivotOf self.now row col) }
        ensures solutions { IfOk result (HasSolutionsOf self.now) }
        ensures keys { IfOk result (KeepsPositiveKeys self.now row col) }
        ensures valid { IfOk result IsTableau }
        ensures fits { OnOk result (All StepFits (steps_of_pivot self.now row col)) }
        ensures unfit { IfErr result (IsPivotStop self.now row col) }
        ensures counted { pivots.new ≡ pivots.old + 1 }
    {
        pivots.tick();
        let mut room = Room::of(alloc, spent);
        room.numbers = filled(alloc, room.numbers, self.numbers.len())?;
        self.write_numbers(room.numbers.as_mut_slice(), row, col)?;
        Ok(self.written_into(room, row, col)?)
    }

    /// The value of a variable where the nonbasic ones are 0: the right side of its row, and 0
    /// where it is not basic.
    pub fn value(&self, variable: u32) -> Frac
        ensures value { result ≡ basic_solution (tableau self.now) variable }
        ensures valid { IsTableau self.now }
    {
        for row in 0..self.basics.len() {
            if self.basics[row] == variable {
                return self.right(row);
            }
        }
        Frac::zero()
    }

    /// Room for as many numbers.
    pub(crate) fn room(&self, alloc: Global) -> Result<Vec<i128>, Memory>
        ensures { IfOk result (λ v. length v.items ≡ length self.now.numbers) }
    {
        zeros(alloc, self.numbers.len())
    }

    /// Writes the numbers that the pivot makes.
    pub(crate) fn write_numbers(
        &self,
        spare: &mut [i128],
        row: usize,
        col: usize,
    ) -> Result<(), Unfit>
        requires row_in { row < self.now.rated }
        requires col_in { col < length self.now.nonbasics }
        requires entry { (tableau self.now).cell row col ≢ zero_ℚ }
        requires shape { length spare.old ≡ length self.now.numbers }
        ensures length { length spare.new ≡ length spare.old }
        ensures pivot_row { OnOk result (HasPivotRow self.now row col spare.new) }
        ensures others { OnOk result (HasOtherRows self.now row col spare.new) }
        ensures fits { OnOk result (All StepFits (steps_of_pivot self.now row col)) }
        ensures unfit { IfErr result (IsFirstUnfit (steps_of_pivot self.now row col)) }
    {
        write_pivot(
            self.numbers.as_slice(),
            spare,
            self.basics.len(),
            self.nonbasics.len() + 2,
            row,
            col + 1,
        )
    }

    /// Takes these numbers for its own, which the pivot made, and gives the old ones.
    pub(crate) fn take_numbers(&mut self, spare: &mut Vec<i128>, row: usize, col: usize)
        requires row_in { row < self.old.rated }
        requires col_in { col < length self.old.nonbasics }
        requires entry { (tableau self.old).cell row col ≢ zero_ℚ }
        requires shape { length spare.old.items ≡ length self.old.numbers }
        requires pivot_row { HasPivotRow self.old row col spare.old.items }
        requires others { HasOtherRows self.old row col spare.old.items }
        ensures new { self.new ≡ with_variables_exchanged self.old row col spare.old.items }
        ensures pivot { IsPivotOf self.old row col self.new }
        ensures solutions { HasSolutionsOf self.old self.new }
        ensures keys { KeepsPositiveKeys self.old row col self.new }
        ensures valid { IsTableau self.new }
        ensures spare { spare.new.items ≡ self.old.numbers }
    {
        exchange_columns(
            self.columns.as_mut_slice(),
            self.starts.as_slice(),
            self.basics.as_slice(),
            self.nonbasics.as_slice(),
            row,
            col,
        );
        let entering = self.nonbasics[col];
        self.nonbasics[col] = self.basics[row];
        self.basics[row] = entering;
        mem::swap(&mut self.numbers, spare);
    }
}
