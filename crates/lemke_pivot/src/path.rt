// The path over a tableau that is pivoted in place.
ghost use Rattle.std.specs.Prelude.{ℕ, suc, ◌≡◌, ◌+◌, ◌^◌, ◌<◌, ◌≤◌, IfErr, OnOk};
ghost use Rattle.game_core.specs.Limits.{most_rows};
ghost use Rattle.lex_tableau.specs.Pivots.{pivot_number};
ghost use Rattle.lemke_pivot.specs.ProblemPaths.{complement};
ghost use Rattle.lemke_pivot.specs.Paths.{EndsSolved, EndsUnfit, IsPathStart, LeadsTo};

use lex_tableau::{PivotCount, UnfitPivot, Work};
use std::sync::ledger::Ledger;

// The complement of a variable.
fn complement_of(size: usize, variable: u32) -> u32
    requires few { size ≤ most_rows }
    requires positive { 0 < variable }
    ensures { result ≡ complement size variable }
{
    let size = size as u32;
    if variable <= size {
        variable + size
    } else if variable <= size + size {
        variable - size
    } else {
        variable
    }
}

/// Walks to the end of the path on which z0 enters at this row.
///
/// # Errors
///
/// The first pivot that has a step that does not fit.
pub(crate) fn walk<L: Ledger>(
    work: &mut Work,
    size: usize,
    first: usize,
    pivots: &mut PivotCount<L>,
) -> Result<(), UnfitPivot>
    requires start { IsPathStart size first work.old }
    ensures solved { OnOk result (EndsSolved work.old size first work.new) }
    ensures unfit { IfErr result (EndsUnfit work.old size first) }
    ensures cost { pivots.new ≤ pivots.old + suc (2 ^ suc (suc (size + size))) }
    ensures path { OnOk result
        ((k : ℕ) × (pivots.new ≡ pivots.old + k) × LeadsTo work.old size first k work.new) }
    ensures counted { IfErr result
        (λ stop. (k : ℕ) × (pivots.new ≡ pivots.old + k) × (stop.number ≡ pivot_number k)) }
{
    let z0 = (size + size + 1) as u32;
    if let Err(unfit) = work.pivot(first, size, pivots) {
        return Err(UnfitPivot {
            number: 1,
            entering: z0,
            unfit,
        });
    }
    let mut entering = (size + first + 1) as u32;
    let mut step: u64 = 1;
    loop {
        if work.now().value(z0).is_zero() {
            return Ok(());
        }
        let Some(column) = work.now().column_of(entering) else {
            unreachable!()
        };
        let Some(row) = work.now().ratio_row(column) else {
            unreachable!()
        };
        let leaving = work.now().basic(row);
        step = step.saturating_add(1);
        if let Err(unfit) = work.pivot(row, column, pivots) {
            return Err(UnfitPivot {
                number: step,
                entering,
                unfit,
            });
        }
        entering = complement_of(size, leaving);
    }
}
