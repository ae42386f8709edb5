// The path of a linear program.
ghost use Rattle.std.specs.Prelude.{ℕ, ◌≡◌, ◌+◌, ◌^◌, ◌<◌, ◌≤◌, ◌↔◌, length, IsTrue, IfErr, OnOk, MatchOption};
ghost use Rattle.rational.specs.Rational.{zero_ℚ, ◌<ℚ◌};
ghost use Rattle.lex_tableau.specs.Rows.{tableau};
ghost use Rattle.lex_tableau.specs.Pivots.{pivot_number};
ghost use Rattle.zero_sum_lp.specs.Paths.{IsEntering, IsOptimal};
ghost use Rattle.zero_sum_lp.specs.ExactPaths.{linear_program, IsProgramStart, EndsPath, IsUnfitPivot, LeadsTo};

use lex_tableau::{PivotCount, Tableau, UnfitPivot, Work};
use std::sync::ledger::Ledger;

// Whether the entry of a row in a column is below 0.
fn is_negative(current: &Tableau, row: usize, column: usize) -> bool
    requires row_in { row < length current.now.basics }
    requires column_in { column < length current.now.nonbasics }
    ensures { IsTrue result ↔ ((tableau current.now).cell row column <ℚ zero_ℚ) }
{
    current.entry_sign(row, column) < 0
}

// The column with a negative entry in the objective row whose variable has the least number.
fn entering(current: &Tableau, objective: usize) -> Option<usize>
    requires { objective < length current.now.basics }
    ensures { MatchOption result (IsOptimal objective (tableau current.now))
        (IsEntering objective (tableau current.now)) }
{
    (0..current.nonbasics().len())
        .filter(|column| is_negative(current, objective, *column))
        .min_by_key(|column| current.nonbasic(*column))
}

/// Follows the path to its end.
///
/// # Errors
///
/// The first pivot that has a step that does not fit.
pub(crate) fn follow<L: Ledger>(
    work: &mut Work,
    objective: usize,
    pivots: &mut PivotCount<L>,
) -> Result<(), UnfitPivot>
    requires start { IsProgramStart work.old }
    requires objective_is { objective ≡ work.old.rated }
    ensures end { OnOk result (EndsPath work.old work.new) }
    ensures unfit { IfErr result (IsUnfitPivot work.old) }
    ensures cost { pivots.new ≤ pivots.old + 2 ^ (linear_program work.old).bound }
    ensures path { OnOk result
        ((k : ℕ) × (pivots.new ≡ pivots.old + k) × LeadsTo work.old k work.new) }
    ensures counted { IfErr result
        (λ stop. (k : ℕ) × (pivots.new ≡ pivots.old + k) × (stop.number ≡ pivot_number k)) }
{
    let mut number: u64 = 1;
    while let Some(column) = entering(work.now(), objective) {
        let Some(row) = work.now().ratio_row(column) else {
            unreachable!();
        };
        let variable = work.now().nonbasic(column);
        match work.pivot(row, column, pivots) {
            Ok(()) => {}
            Err(unfit) => {
                return Err(UnfitPivot {
                    number,
                    entering: variable,
                    unfit,
                });
            }
        }
        number = number.saturating_add(1);
    }
    Ok(())
}
