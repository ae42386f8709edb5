// The solution of a sequence form, by its linear program.
ghost use Rattle.std.specs.Prelude.{◌≡◌, ◌<◌, IfOk};
ghost use Rattle.answers.specs.Answers.{Gives, map_ok};
ghost use Rattle.zero_sum_lp.specs.Ends.{optimum_in};
ghost use Rattle.two_player_tools.specs.Lp.{solution_in};
ghost use Rattle.two_player_tools.specs.Solved.{HasSizesOf, solution_of};

use lex_tableau::{PivotCount, UnfitPivot};
use refusals::Refusal;
use sequence_data::{Plans, SeqForm};
use std::alloc::Global;
use std::marker::Brand;
use std::sync::ledger::{Blank, Ledger};
use zero_sum_lp::{Lp, Optimum, program};

/// A form's solution.
#[derive(Debug, Drop)]
pub struct Solved {
    /// The optimum of its program, which has the prices.
    pub optimum: Optimum,
    /// Both players' plans.
    pub plans: Plans,
}

// The end of a program's path, whose pivots are counted on a blank. The count is not used.
fn follow<L: Ledger>(lp: Lp, blank: Blank) -> Result<Optimum, UnfitPivot>
    requires { (L.parts ≡ blank.parts) × (L.name ≡ blank.name) × (0 < blank.parts) }
    ensures { optimum_in lp result }
{
    let mut pivots = PivotCount::<L>::new(blank);
    lp.solve(&mut pivots)
}

// The optimum of a program, or the pivot of its path that does not fit. Takes no memory.
fn optimum_in(lp: Lp) -> Result<Optimum, UnfitPivot>
    ensures { optimum_in lp result }
{
    follow::<Brand>(lp, Blank::new(1))
}

/// The solution of a form.
pub(crate) fn solve(alloc: Global, form: &SeqForm) -> Result<Solved, Refusal>
    ensures answer { Gives Refusal.Memory (solution_in form.now)
        (map_ok result (solution_of form.now)) }
    ensures sizes { IfOk result (HasSizesOf form.now) }
{
    // Its contract gives what the type keeps.
    let _side = form.first();
    let lp = program(alloc, form)?;
    let optimum = optimum_in(lp)?;
    let plans = optimum.plans(alloc)?;
    Ok(Solved { optimum, plans })
}
