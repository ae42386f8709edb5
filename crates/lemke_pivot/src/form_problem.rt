// The problem of a sequence form.
ghost use Rattle.sequence_data.specs.Sizes.{form_sizes, problem_rows};
ghost use Rattle.std.specs.Prelude.{◌≡◌, ◌≤◌, map, IfOk};
ghost use Rattle.answers.specs.Answers.{Gives};
ghost use Rattle.game_core.specs.Limits.{most_rows};
ghost use Rattle.lemke_pivot.specs.declared.stop.LcpStop.TheVariants as stops;
ghost use Rattle.lemke_pivot.specs.FormProblems.{IsSystemOf, cost_one, cost_two, problem_in, form_start_in};

use crate::costs::costs;
use crate::lcp::{Lcp, row_count};
use crate::matrix::SideCosts;
use crate::stop::LcpStop;
use crate::system::system;
use answers::Memory;
use frac128::Frac;
use game_core::{MOST_ROWS, TooLarge, What};
use lex_tableau::System;
use sequence_data::{SeqForm, dense};
use std::alloc::Global;

// The system with the costs of the cells.
fn system_of_form(
    alloc: Global,
    form: &SeqForm,
    one: &[Frac],
    two: &[Frac],
) -> Result<System, Memory>
    requires few { problem_rows (form_sizes form.now) ≤ most_rows }
    requires one { one.now ≡ map (cost_one form.now.greatest_one) form.now.cells }
    requires two { two.now ≡ map (cost_two form.now.greatest_two) form.now.cells }
    ensures { IfOk result (IsSystemOf form.now) }
{
    let rows = form.first().sequences() as usize;
    let columns = form.second().sequences() as usize;
    let one = dense(alloc, rows, columns, form.cells(), one)?;
    let two = dense(alloc, rows, columns, form.cells(), two)?;
    let costs = SideCosts {
        first: form.first(),
        second: form.second(),
        one: &one,
        two: &two,
    };
    system(alloc, &costs)
}

// The problem of a form with its system, and the room of its path.
fn started(alloc: Global, form: &SeqForm, system: &System) -> Result<Lcp, LcpStop>
    requires few { problem_rows (form_sizes form.now) ≤ most_rows }
    requires system { IsSystemOf form.now system.now }
    ensures { Gives stops.Memory (form_start_in form.now) result }
{
    let first = form.first().copied(alloc)?;
    let second = form.second().copied(alloc)?;
    Ok(Lcp::new(alloc, first, second, system)?)
}

/// The linear complementarity problem of a sequence form, with the room of its path.
///
/// # Errors
///
/// The first of these that applies: `TooLarge` exactly above 512 rows; `Range` exactly at the first
/// step of the costs that does not fit; `Start` exactly at the first step of the start that does
/// not fit. `Memory` where memory ran out.
pub fn problem(alloc: Global, form: &SeqForm) -> Result<Lcp, LcpStop>
    ensures { Gives stops.Memory (problem_in form.now) result }
{
    let count = row_count(form.first(), form.second());
    TooLarge::within(What::Rows, MOST_ROWS, count)?;
    let costs = costs(
        alloc,
        form.greatest_one(),
        form.greatest_two(),
        form.cells(),
    )?;
    let system = system_of_form(alloc, form, &costs.one, &costs.two)?;
    started(alloc, form, &system)
}
