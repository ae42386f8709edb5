// The problem and its path.
ghost use Rattle.std.specs.Prelude.{ℕ, suc, ◌≡◌, ◌+◌, ◌^◌, ◌<◌, ◌≤◌, length, IfErr, IfOk};
ghost use Rattle.answers.specs.Answers.{Gives, map_ok};
ghost use Rattle.game_theory.specs.Lines.{listed};
ghost use Rattle.sequence_data.specs.Data.{IsSideData, side_of};
ghost use Rattle.sequence_forms.specs.Sides.{sequences};
ghost use Rattle.game_core.specs.Limits.{most_rows};
ghost use Rattle.lex_tableau.specs.Pivots.{pivot_number};
ghost use Rattle.lex_tableau.specs.Rows.{IsTableau, tableau};
ghost use Rattle.lex_tableau.specs.StartStops.{start_in};
ghost use Rattle.lex_tableau.specs.declared.tableau.StartStop.TheVariants as start_stops;
ghost use Rattle.rational.specs.Rational.{ℚ};
ghost use Rattle.lemke_pivot.specs.Ends.{solved_in};
ghost use Rattle.lemke_pivot.specs.ProblemLaws.{CostSumsAreNotNegative};
ghost use Rattle.lemke_pivot.specs.Problems.{costs_of};
ghost use Rattle.lemke_pivot.specs.Systems.{IsSystemFor};
ghost use Rattle.lemke_pivot.specs.Parts.{plan_one, plan_two, plans_at, size_for, size_of};
ghost use Rattle.lemke_pivot.specs.ProblemPaths.{IsLeastRow};
ghost use Rattle.lemke_pivot.specs.Paths.{LeadsTo};

use crate::path::walk;
use answers::Memory;
use frac128::Frac;
use lex_tableau::{PivotCount, StartStop, System, Tableau, UnfitPivot, Work};
use sequence_data::{Plans, Side, rows, side_counts};
use std::alloc::Global;
use std::marker::Model;
use std::sync::ledger::Ledger;

/// The complementarity problem of two players' plans: their sets, and the start of the path with
/// the room of its pivots.
#[derive(Debug, Drop)]
pub struct Lcp {
    first: Side,
    second: Side,
    size: usize,
    work: Work,
}

impl Model for Lcp {
    ghost use Rattle.std.specs.Prelude.{◌≡◌};
    ghost use Rattle.lemke_pivot.specs.Parts.{IsProblem, Problem, size_for};

    ghost Value = { Problem };

    ghost view = { λ l. record { first = l.first; second = l.second; tableau = l.work } };

    ghost invariant = { λ l.
        IsProblem (record { first = l.first; second = l.second; tableau = l.work })
        × (l.size ≡ size_for l.first l.second) };
}

/// A solution: both players' sets, and the end of the path, where the plans stand.
#[derive(Debug, Drop)]
pub struct Solution {
    first: Side,
    second: Side,
    size: usize,
    work: Work,
}

impl Model for Solution {
    ghost use Rattle.std.specs.Prelude.{◌≡◌, ◌≤◌};
    ghost use Rattle.game_core.specs.Limits.{most_rows};
    ghost use Rattle.sequence_data.specs.Data.{IsSideData};
    ghost use Rattle.lemke_pivot.specs.Parts.{Problem, size_for};

    ghost Value = { Problem };

    ghost view = { λ s. record { first = s.first; second = s.second; tableau = s.work } };

    ghost invariant = { λ s.
        IsSideData s.first × IsSideData s.second × (s.size ≤ most_rows)
        × (s.size ≡ size_for s.first s.second) };
}

// The last of the rows with the least right side.
fn least_row(table: &Tableau, size: usize) -> usize
    requires some { 0 < size }
    requires rows { length table.now.basics ≡ size }
    ensures least { IsLeastRow size (tableau table.now).right result }
    ensures valid { IsTableau table.now }
{
    let mut best = 0;
    let mut least = table.right(0);
    for row in 1..size {
        let right = table.right(row);
        if !least.is_less(right) {
            best = row;
            least = right;
        }
    }
    best
}

/// How many rows the problem of two players has.
pub(crate) fn row_count(first: &Side, second: &Side) -> u64
    requires first_side { IsSideData first.now }
    requires second_side { IsSideData second.now }
    ensures { result ≡ size_for first.now second.now }
{
    rows(&side_counts(first, second))
}

impl Lcp {
    /// The problem of two players' sets with a system, and the room of its path.
    ///
    /// # Errors
    ///
    /// Those of `Work::new`.
    pub(crate) fn new(
        alloc: Global,
        first: Side,
        second: Side,
        system: &System,
    ) -> Result<Lcp, StartStop>
        requires first_side { IsSideData first }
        requires second_side { IsSideData second }
        requires few { size_for first second ≤ most_rows }
        requires problem { (one two : ℕ → ℕ → ℚ)
            × CostSumsAreNotNegative (costs_of (side_of first) (side_of second) one two)
            × IsSystemFor first second one two system.now }
        ensures first { IfOk result (λ lcp. lcp.first ≡ first) }
        ensures second { IfOk result (λ lcp. lcp.second ≡ second) }
        ensures start { Gives start_stops.Memory (start_in system.now)
            (map_ok result (λ lcp. lcp.tableau)) }
    {
        let work = Work::new(alloc, system)?;
        let size = row_count(&first, &second) as usize;
        Ok(Lcp {
            first,
            second,
            size,
            work,
        })
    }

    /// Follows the path to the solution. Takes no memory. There is never a ray. Each pivot of the
    /// path counts one, also the one that does not fit.
    ///
    /// # Errors
    ///
    /// The first pivot of the path that has a step that does not fit.
    pub fn solve<L: Ledger>(self, pivots: &mut PivotCount<L>) -> Result<Solution, UnfitPivot>
        ensures end { solved_in self result }
        ensures cost { pivots.new ≤ pivots.old + suc (2 ^ suc (suc (size_of self + size_of self))) }
        ensures path { IfOk result (λ solution. (row k : ℕ) × (pivots.new ≡ pivots.old + k)
            × LeadsTo self.tableau (size_of self) row k solution.tableau) }
        ensures counted { IfErr result (λ stop.
            (k : ℕ) × (pivots.new ≡ pivots.old + k) × (stop.number ≡ pivot_number k)) }
    {
        let Lcp {
            first,
            second,
            size,
            mut work,
        } = self;
        let row = least_row(work.now(), size);
        walk(&mut work, size, row, pivots)?;
        Ok(Solution {
            first,
            second,
            size,
            work,
        })
    }
}

impl Solution {
    /// The weight of a sequence in the first player's plan. Sequences count from 0, the empty one.
    pub fn one(&self, sequence: u32) -> Frac
        requires { sequence < sequences (side_of self.now.first) }
        ensures { result ≡ plan_one self.now sequence }
    {
        let variable = self.size + 1 + sequence as usize;
        self.work.now().value(variable as u32)
    }

    /// The weight of a sequence in the second player's plan. Sequences count from 0, the empty one.
    pub fn two(&self, sequence: u32) -> Frac
        requires { sequence < sequences (side_of self.now.second) }
        ensures { result ≡ plan_two self.now sequence }
    {
        let place = self.first.sequences() as usize + sequence as usize;
        let variable = self.size + 1 + place;
        self.work.now().value(variable as u32)
    }

    // The first player's plan.
    fn first_plan(&self, alloc: Global) -> Result<Vec<Frac>, Memory>
        ensures { IfOk result (λ plan.
            plan.items ≡ listed (sequences (side_of self.now.first)) (plan_one self.now)) }
    {
        let mut plan = Vec::new(alloc);
        for sequence in 0..self.first.sequences() {
            plan.push(self.one(sequence))?;
        }
        Ok(plan)
    }

    // The second player's plan.
    fn second_plan(&self, alloc: Global) -> Result<Vec<Frac>, Memory>
        ensures { IfOk result (λ plan.
            plan.items ≡ listed (sequences (side_of self.now.second)) (plan_two self.now)) }
    {
        let mut plan = Vec::new(alloc);
        for sequence in 0..self.second.sequences() {
            plan.push(self.two(sequence))?;
        }
        Ok(plan)
    }

    /// Both players' plans.
    ///
    /// # Errors
    ///
    /// Memory ran out.
    pub fn plans(&self, alloc: Global) -> Result<Plans, Memory>
        ensures { IfOk result (λ plans. plans ≡ plans_at self.now) }
    {
        let one = self.first_plan(alloc)?;
        let two = self.second_plan(alloc)?;
        Ok(Plans::new(one, two))
    }
}
