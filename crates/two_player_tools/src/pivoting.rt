// The plans of a sequence form in equilibrium, by its complementarity problem.
ghost use Rattle.std.specs.Prelude.{◌≡◌, ◌<◌, length, IfOk};
ghost use Rattle.answers.specs.Answers.{Gives};
ghost use Rattle.lemke_pivot.specs.Ends.{solved_in};
ghost use Rattle.two_player_tools.specs.Lcp.{equilibrium_in};

use lemke_pivot::{Lcp, Solution, problem};
use lex_tableau::{PivotCount, UnfitPivot};
use refusals::Refusal;
use sequence_data::{Plans, SeqForm};
use std::alloc::Global;
use std::marker::Brand;
use std::sync::ledger::{Blank, Ledger};

// The end of a problem's path, whose pivots are counted on a blank. The count is not used.
fn follow<L: Ledger>(lcp: Lcp, blank: Blank) -> Result<Solution, UnfitPivot>
    requires { (L.parts ≡ blank.parts) × (L.name ≡ blank.name) × (0 < blank.parts) }
    ensures { solved_in lcp result }
{
    let mut pivots = PivotCount::<L>::new(blank);
    lcp.solve(&mut pivots)
}

// The solution of a problem, or the pivot of its path that does not fit. Takes no memory.
fn solved_in(lcp: Lcp) -> Result<Solution, UnfitPivot>
    ensures { solved_in lcp result }
{
    follow::<Brand>(lcp, Blank::new(1))
}

/// The plans of a form in equilibrium.
pub(crate) fn equilibrium_in(alloc: Global, form: &SeqForm) -> Result<Plans, Refusal>
    ensures answer { Gives Refusal.Memory (equilibrium_in form.now) result }
    ensures one { IfOk result (λ plans. length plans.one ≡ form.now.first.sequences) }
    ensures two { IfOk result (λ plans. length plans.two ≡ form.now.second.sequences) }
{
    // Its contract gives what the type keeps.
    let _side = form.first();
    let lcp = problem(alloc, form)?;
    let solution = solved_in(lcp)?;
    Ok(solution.plans(alloc)?)
}
