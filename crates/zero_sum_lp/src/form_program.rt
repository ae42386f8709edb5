// The program of a sequence form.
ghost use Rattle.std.specs.Prelude.{◌≡◌, ◌≤◌, map, IfOk};
ghost use Rattle.answers.specs.Answers.{Gives};
ghost use Rattle.game_core.specs.Limits.{most_rows};
ghost use Rattle.sequence_data.specs.Sizes.{form_sizes, program_size};
ghost use Rattle.zero_sum_lp.specs.declared.stop.LpStop.TheVariants as lp_stops;
ghost use Rattle.zero_sum_lp.specs.FormPrograms.{IsSystemOf, cell_gain, program_in, form_start_in};

use crate::gains::gains;
use crate::lp::Lp;
use crate::stop::LpStop;
use crate::sums::{sums, test_constant};
use crate::system::system;
use answers::Memory;
use frac128::Frac;
use game_core::{MOST_ROWS, TooLarge, What};
use lex_tableau::System;
use sequence_data::{SeqForm, dense, program_size, side_counts};
use std::alloc::Global;

// How many rows and columns the program has.
fn size(form: &SeqForm) -> u64
    ensures { result ≡ program_size (form_sizes form.now) }
{
    program_size(&side_counts(form.first(), form.second()))
}

// The system with the gains of the cells.
fn system_of_form(alloc: Global, form: &SeqForm, gains: &[Frac]) -> Result<System, Memory>
    requires few { program_size (form_sizes form.now) ≤ most_rows }
    requires gains { gains.now ≡ map (cell_gain form.now.least_one) form.now.cells }
    ensures { IfOk result (IsSystemOf form.now) }
{
    let rows = form.first().sequences() as usize;
    let columns = form.second().sequences() as usize;
    let matrix = dense(alloc, rows, columns, form.cells(), gains)?;
    system(alloc, form.first(), form.second(), &matrix)
}

// The program of a form with its system, and the room of its path.
fn started(alloc: Global, form: &SeqForm, system: &System) -> Result<Lp, LpStop>
    requires few { program_size (form_sizes form.now) ≤ most_rows }
    requires system { IsSystemOf form.now system.now }
    ensures { Gives lp_stops.Memory (form_start_in form.now) result }
{
    let first = form.first().copied(alloc)?;
    let second = form.second().copied(alloc)?;
    Ok(Lp::new(alloc, first, second, system)?)
}

/// The linear program of a sequence form, with the room of its path.
///
/// # Errors
///
/// The first of these that applies: `TooLarge` exactly above 512 rows and columns together;
/// `SumRange` exactly at the first leaf whose payoffs' sum does not fit; `NotConstant` exactly
/// where not all sums are the same; `GainRange` exactly at the first step of the gains that does
/// not fit; `Start` exactly at the first step of the start that does not fit. `Memory` where memory
/// ran out.
pub fn program(alloc: Global, form: &SeqForm) -> Result<Lp, LpStop>
    ensures { Gives lp_stops.Memory (program_in form.now) result }
{
    TooLarge::within(What::Rows, MOST_ROWS, size(form))?;
    let sums = sums(alloc, form.leaves())?;
    test_constant(form.leaves(), &sums)?;
    let gains = gains(alloc, form.least_one(), form.cells())?;
    let system = system_of_form(alloc, form, &gains)?;
    started(alloc, form, &system)
}
