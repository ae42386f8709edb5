// The program and its path.
ghost use Rattle.sequence_data.specs.Data.{IsSideData, side_of};
ghost use Rattle.std.specs.Prelude.{ℕ, ◌≡◌, ◌+◌, ◌≤◌, ◌^◌, IfErr, IfOk};
ghost use Rattle.rational.specs.Rational.{ℚ};
ghost use Rattle.answers.specs.Answers.{Gives, map_ok};
ghost use Rattle.game_core.specs.Limits.{most_rows};
ghost use Rattle.lex_tableau.specs.Pivots.{pivot_number};
ghost use Rattle.lex_tableau.specs.StartStops.{start_in};
ghost use Rattle.lex_tableau.specs.declared.tableau.StartStop.TheVariants as start_stops;
ghost use Rattle.sequence_data.specs.Sizes.{program_size, sizes_of};
ghost use Rattle.zero_sum_lp.specs.Systems.{IsSystemFor};
ghost use Rattle.zero_sum_lp.specs.Ends.{optimum_in};
ghost use Rattle.zero_sum_lp.specs.ExactPaths.{linear_program, LeadsTo};

use crate::optimum::Optimum;
use crate::path::follow;
use lex_tableau::{PivotCount, StartStop, System, UnfitPivot, Work};
use sequence_data::Side;
use std::alloc::Global;
use std::marker::Model;
use std::sync::ledger::Ledger;

/// The linear program of two players' plans: their sets, and the start of the path with the room of
/// its pivots.
#[derive(Debug, Drop)]
pub struct Lp {
    first: Side,
    second: Side,
    objective: usize,
    work: Work,
}

impl Model for Lp {
    ghost use Rattle.zero_sum_lp.specs.Parts.{Program, IsProgram, HasShape};

    ghost Value = { Program };

    ghost view = { λ l. record { first = l.first; second = l.second; tableau = l.work } };

    ghost invariant = { λ l.
        IsProgram (record { first = l.first; second = l.second; tableau = l.work })
        × HasShape l.first l.second l.objective };
}

impl Lp {
    /// The program of two players' sets with a system, and the room of its path.
    ///
    /// # Errors
    ///
    /// Those of `Work::new`.
    pub(crate) fn new(
        alloc: Global,
        first: Side,
        second: Side,
        system: &System,
    ) -> Result<Lp, StartStop>
        requires first_side { IsSideData first }
        requires second_side { IsSideData second }
        requires few { program_size (sizes_of (side_of first) (side_of second)) ≤ most_rows }
        requires program { (gain : ℕ → ℕ → ℚ) × IsSystemFor first second gain system.now }
        ensures first { IfOk result (λ lp. lp.first ≡ first) }
        ensures second { IfOk result (λ lp. lp.second ≡ second) }
        ensures start { Gives start_stops.Memory (start_in system.now)
            (map_ok result (λ lp. lp.tableau)) }
    {
        let work = Work::new(alloc, system)?;
        let objective = 1 + first.sets().len() + second.sequences() as usize;
        Ok(Lp {
            first,
            second,
            objective,
            work,
        })
    }

    /// Follows the path to the optimum. Takes no memory. There is always an optimum. Each pivot of
    /// the path counts one, also the one that does not fit.
    ///
    /// # Errors
    ///
    /// The first pivot of the path that has a step that does not fit.
    pub fn solve<L: Ledger>(self, pivots: &mut PivotCount<L>) -> Result<Optimum, UnfitPivot>
        ensures end { optimum_in self result }
        ensures cost { pivots.new ≤ pivots.old + 2 ^ (linear_program self.tableau).bound }
        ensures path { IfOk result (λ optimum.
            (k : ℕ) × (pivots.new ≡ pivots.old + k) × LeadsTo self.tableau k optimum.tableau) }
        ensures counted { IfErr result (λ stop.
            (k : ℕ) × (pivots.new ≡ pivots.old + k) × (stop.number ≡ pivot_number k)) }
    {
        let Lp {
            first,
            second,
            objective,
            mut work,
        } = self;
        follow(&mut work, objective, pivots)?;
        Ok(Optimum::new(first, second, objective, work))
    }
}
