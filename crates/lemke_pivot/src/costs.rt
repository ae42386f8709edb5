// What both players' payoffs lack of the greatest ones.
ghost use Rattle.std.specs.Prelude.{◌≡◌, map, IfOk};
ghost use Rattle.answers.specs.Answers.{Gives, map_ok};
ghost use Rattle.frac128.specs.Steps.{StepsGive};
ghost use Rattle.lemke_pivot.specs.declared.stop.LcpStop.TheVariants as stops;
ghost use Rattle.sequence_forms.specs.Prices.{cost_at};
ghost use Rattle.lemke_pivot.specs.FormProblems.{cost_one, cost_steps, cost_two, costs_in};

use crate::stop::LcpStop;
use frac128::{Frac, Unfit};
use sequence_data::Cell;
use std::alloc::Global;

/// The costs of both players, cell by cell.
#[derive(Debug, Drop)]
pub(crate) struct CellCosts {
    pub(crate) one: Vec<Frac>,
    pub(crate) two: Vec<Frac>,
}

// The cost of a payoff: the greatest payoff times the weight, less the payoff.
fn cost(most: Frac, weight: Frac, payoff: Frac) -> Result<Frac, Unfit>
    ensures { StepsGive (cost_steps most weight payoff) (cost_at most weight payoff) result }
{
    let part = most.mul(weight)?;
    part.sub(payoff)
}

// The refusal of a player's cost at a cell.
fn refused(player: u32, cell: Cell, unfit: Unfit) -> LcpStop
    ensures { result ≡ stops.Range player cell.row cell.column unfit }
{
    LcpStop::Range {
        player,
        row: cell.row,
        column: cell.column,
        unfit,
    }
}

/// The costs of both players at each cell.
///
/// # Errors
///
/// `Range` exactly at the first step that does not fit. `Memory` where memory ran out.
pub(crate) fn costs(
    alloc: Global,
    greatest_one: Frac,
    greatest_two: Frac,
    cells: &[Cell],
) -> Result<CellCosts, LcpStop>
    ensures one { IfOk result (λ costs. costs.one.items ≡ map (cost_one greatest_one) cells.now) }
    ensures two { IfOk result (λ costs. costs.two.items ≡ map (cost_two greatest_two) cells.now) }
    ensures stage { Gives stops.Memory (costs_in greatest_one greatest_two cells.now)
        (map_ok result (λ _. tt)) }
{
    let mut one = Vec::with_capacity(alloc, cells.len())?;
    let mut two = Vec::with_capacity(alloc, cells.len())?;
    for cell in cells {
        match cost(greatest_one, cell.weight, cell.one) {
            Ok(value) => one.push(value)?,
            Err(unfit) => return Err(refused(0, *cell, unfit)),
        }
        match cost(greatest_two, cell.weight, cell.two) {
            Ok(value) => two.push(value)?,
            Err(unfit) => return Err(refused(1, *cell, unfit)),
        }
    }
    Ok(CellCosts { one, two })
}
