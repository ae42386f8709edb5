// What the first player's payoffs exceed the least one by.
ghost use Rattle.std.specs.Prelude.{◌≡◌, map, IfOk};
ghost use Rattle.answers.specs.Answers.{Gives, map_ok};
ghost use Rattle.frac128.specs.Steps.{StepsGive};
ghost use Rattle.zero_sum_lp.specs.declared.stop.LpStop.TheVariants as lp_stops;
ghost use Rattle.zero_sum_lp.specs.FormPrograms.{cell_gain, gain_steps, gains_in};

use crate::stop::LpStop;
use frac128::{Frac, Unfit};
use sequence_data::Cell;
use std::alloc::Global;

// The gain of a cell: its payoff less the least payoff times its weight.
fn gain(least: Frac, cell: Cell) -> Result<Frac, Unfit>
    ensures { StepsGive (gain_steps least cell) (cell_gain least cell) result }
{
    let part = least.mul(cell.weight)?;
    cell.one.sub(part)
}

/// The gain of each cell.
///
/// # Errors
///
/// `GainRange` exactly at the first step that does not fit. `Memory` where memory ran out.
pub(crate) fn gains(alloc: Global, least: Frac, cells: &[Cell]) -> Result<Vec<Frac>, LpStop>
    ensures gains { IfOk result (λ gains. gains.items ≡ map (cell_gain least) cells.now) }
    ensures stage { Gives lp_stops.Memory (gains_in least cells.now) (map_ok result (λ _. tt)) }
{
    let mut gains = Vec::with_capacity(alloc, cells.len())?;
    for cell in cells {
        match gain(least, *cell) {
            Ok(gain) => gains.push(gain)?,
            Err(unfit) => {
                return Err(LpStop::GainRange {
                    row: cell.row,
                    column: cell.column,
                    unfit,
                });
            }
        }
    }
    Ok(gains)
}
