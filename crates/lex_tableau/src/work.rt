// A tableau that is pivoted in place.
ghost use Rattle.std.specs.Prelude.{◌≡◌, ◌≢◌, ◌+◌, ◌<◌, length, IfErr, OnOk, OnErr, All};
ghost use Rattle.answers.specs.Answers.{Gives};
ghost use Rattle.rational.specs.Rational.{zero_ℚ};
ghost use Rattle.lex_tableau.specs.Pivots.{steps_of_pivot};
ghost use Rattle.lex_tableau.specs.Ratio.{KeepsPositiveKeys};
ghost use Rattle.lex_tableau.specs.Rows.{HasSolutionsOf, IsPivotOf, IsTableau, tableau};
ghost use Rattle.lex_tableau.specs.StartStops.{start_in};
ghost use Rattle.lex_tableau.specs.declared.tableau.StartStop.TheVariants as start_stops;
ghost use Rattle.frac128.specs.Steps.{StepFits, IsFirstUnfit};

use crate::pivot_count::PivotCount;
use crate::system::System;
use crate::tableau::{StartStop, Tableau};
use frac128::Unfit;
use std::alloc::Global;
use std::marker::Model;
use std::sync::ledger::Ledger;

/// A tableau, with the room of a second one: its pivots take no memory. Contracts see the tableau.
#[derive(Debug, Drop)]
pub struct Work {
    tableau: Tableau,
    spare: Vec<i128>,
}

impl Model for Work {
    ghost use Rattle.std.specs.Prelude.{◌≡◌, length};
    ghost use Rattle.lex_tableau.specs.Rows.{WholeTableau, IsTableau};

    ghost Value = { WholeTableau };

    ghost view = { λ w. w.tableau };

    ghost invariant = { λ w. (length w.spare.items ≡ length w.tableau.numbers)
        × IsTableau w.tableau };
}

impl Work {
    /// The start of a system, with the room of a second tableau.
    ///
    /// # Errors
    ///
    /// Those of `Tableau::start`.
    pub fn new(alloc: Global, system: &System) -> Result<Work, StartStop>
        ensures { Gives start_stops.Memory (start_in system.now) result }
    {
        let tableau = Tableau::start(alloc, system)?;
        let spare = tableau.room(alloc)?;
        Ok(Work { tableau, spare })
    }

    /// The tableau as it is now.
    pub fn now(&self) -> &Tableau
        ensures value { result.now ≡ self.now }
        ensures valid { IsTableau self.now }
    {
        &self.tableau
    }

    /// The pivot on a rated row and a column. It counts one pivot, also where it is refused.
    ///
    /// # Errors
    ///
    /// The first step that does not fit, in the order of the rows and in each of the coefficient of
    /// the basic variable, the columns and the right side. The tableau is then unchanged.
    pub fn pivot<L: Ledger>(
        &mut self,
        row: usize,
        col: usize,
        pivots: &mut PivotCount<L>,
    ) -> Result<(), Unfit>
        requires row_in { row < self.old.rated }
        requires col_in { col < length self.old.nonbasics }
        requires entry { (tableau self.old).cell row col ≢ zero_ℚ }
        ensures pivot { OnOk result (IsPivotOf self.old row col self.new) }
        ensures solutions { OnOk result (HasSolutionsOf self.old self.new) }
        ensures keys { OnOk result (KeepsPositiveKeys self.old row col self.new) }
        ensures valid { IsTableau self.new }
        ensures fits { OnOk result (All StepFits (steps_of_pivot self.old row col)) }
        ensures unfit { IfErr result (IsFirstUnfit (steps_of_pivot self.old row col)) }
        ensures unchanged { OnErr result (self.new ≡ self.old) }
        ensures counted { pivots.new ≡ pivots.old + 1 }
    {
        pivots.tick();
        self.tableau
            .write_numbers(self.spare.as_mut_slice(), row, col)?;
        self.tableau.take_numbers(&mut self.spare, row, col);
        Ok(())
    }
}
