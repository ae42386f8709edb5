// The optimum of a program.
ghost use Rattle.sequence_data.specs.Data.{IsSideData, side_of};
ghost use Rattle.std.specs.Prelude.{◌≡◌, ◌≢◌, ◌≤◌, ◌<◌, ◌+◌, length, IfOk};
ghost use Rattle.sequence_forms.specs.Sides.{sequences};
ghost use Rattle.answers.specs.Answers.{Gives, map_ok};
ghost use Rattle.zero_sum_lp.specs.declared.stop.PlanStop.TheVariants as plan_stops;
ghost use Rattle.rational.specs.Sum.{entry_at};
ghost use Rattle.zero_sum_lp.specs.PlanLists.{AreWeights};
ghost use Rattle.zero_sum_lp.specs.PlanStops.{plans_of, raised_in, trimmed_in};
ghost use Rattle.linear_systems.specs.Rows.{coefficient};
ghost use Rattle.lex_tableau.specs.Rows.{tableau};
ghost use Rattle.zero_sum_lp.specs.Parts.{HasShape, IsOptimum, first_prices, first_raw, second_prices, second_raw};

use crate::raising::raise;
use crate::stop::PlanStop;
use crate::trimming::trim;
use answers::Memory;
use frac128::{Frac, Unfit};
use lex_tableau::{Tableau, Work};
use sequence_data::{Plans, Side};
use std::alloc::Global;
use std::marker::Model;

/// The optimum of a program: both players' sets, the prices and the raw weights, which stand in the
/// last tableau.
#[derive(Debug, Drop)]
pub struct Optimum {
    first: Side,
    second: Side,
    objective: usize,
    work: Work,
}

impl Model for Optimum {
    ghost use Rattle.zero_sum_lp.specs.Parts.{Program, IsOptimum, HasShape};

    ghost Value = { Program };

    ghost view = { λ o. record { first = o.first; second = o.second; tableau = o.work } };

    ghost invariant = { λ o.
        IsOptimum (record { first = o.first; second = o.second; tableau = o.work })
        × HasShape o.first o.second o.objective };
}

// The raw weights, raised.
fn raised(weights: Vec<Frac>, side: &Side) -> Result<Vec<Frac>, Unfit>
    requires side { IsSideData side.now }
    requires shape { length weights.items ≡ sequences (side_of side.now) }
    ensures { raised_in (side_of side.now) (entry_at weights.items)
        (map_ok result (λ plan. plan.items)) }
{
    let mut weights = weights;
    raise(weights.as_mut_slice(), side)?;
    Ok(weights)
}

// The raw weights, once they are trimmed.
fn trimmed(weights: Vec<Frac>, side: &Side) -> Result<Vec<Frac>, Unfit>
    requires side { IsSideData side.now }
    requires shape { length weights.items ≡ sequences (side_of side.now) }
    ensures { trimmed_in (side_of side.now) (entry_at weights.items)
        (map_ok result (λ plan. plan.items)) }
{
    let mut weights = weights;
    trim(weights.as_mut_slice(), side)?;
    Ok(weights)
}

// The entry of the objective row at a variable that is not its own, which counts as 0 where the
// variable is basic.
fn objective_entry(current: &Tableau, objective: usize, variable: u32) -> Frac
    requires row_in { objective < length current.now.basics }
    requires other { (tableau current.now).basic objective ≢ variable }
    ensures { result ≡ coefficient (tableau current.now) objective variable }
{
    match current.column_of(variable) {
        Some(column) => current.entry(objective, column),
        None => Frac::zero(),
    }
}

impl Optimum {
    // The optimum that the end of a path is.
    pub(crate) fn new(first: Side, second: Side, objective: usize, work: Work) -> Optimum
        requires optimum { IsOptimum (record { first = first; second = second; tableau = work }) }
        requires shape { HasShape first second objective }
        ensures { result ≡ record { first = first; second = second; tableau = work } }
    {
        Optimum {
            first,
            second,
            objective,
            work,
        }
    }

    /// The price of the whole game (0) or of the first player's set k - 1, counted from 0.
    pub fn price_one(&self, k: u32) -> Frac
        requires { k ≤ length self.now.first.sets }
        ensures { result ≡ first_prices self.now k }
    {
        objective_entry(self.work.now(), self.objective, k + 1)
    }

    /// The price of the whole game (0) or of the second player's set k - 1, counted from 0.
    pub fn price_two(&self, k: u32) -> Frac
        requires { k ≤ length self.now.second.sets }
        ensures { result ≡ second_prices self.now k }
    {
        let before = self.objective + self.first.sequences() as usize;
        self.work.now().value((before + k as usize + 1) as u32)
    }

    // The raw weights of the first player: the values of x.
    fn raw_one(&self, alloc: Global) -> Result<Vec<Frac>, Memory>
        ensures { IfOk result (λ raw.
            AreWeights (sequences (side_of self.now.first)) (first_raw self.now) raw.items) }
    {
        let mut raw = Vec::new(alloc);
        for q in 0..self.first.sequences() as usize {
            raw.push(self.work.now().value((self.objective + q + 1) as u32))?;
        }
        Ok(raw)
    }

    // The raw weights of the second player: the entries of the objective row at the slacks of the
    // second player's rows.
    fn raw_two(&self, alloc: Global) -> Result<Vec<Frac>, Memory>
        ensures { IfOk result (λ raw.
            AreWeights (sequences (side_of self.now.second)) (second_raw self.now) raw.items) }
    {
        let mut raw = Vec::new(alloc);
        let before = self.first.sets().len() + 1;
        for q in 0..self.second.sequences() as usize {
            raw.push(objective_entry(self.work.now(), self.objective, (before + q + 1) as u32))?;
        }
        Ok(raw)
    }

    /// The plans that the raw weights make.
    ///
    /// # Errors
    ///
    /// `Range` exactly at the first step that does not fit, in the order of the players, their sets
    /// and the actions. `Memory` where memory ran out.
    pub fn plans(&self, alloc: Global) -> Result<Plans, PlanStop>
        ensures { Gives plan_stops.Memory (plans_of self.now) result }
    {
        let raw = self.raw_one(alloc)?;
        let one = match raised(raw, &self.first) {
            Ok(one) => one,
            Err(unfit) => return Err(PlanStop::Range { player: 0, unfit }),
        };
        let raw = self.raw_two(alloc)?;
        match trimmed(raw, &self.second) {
            Ok(two) => Ok(Plans::new(one, two)),
            Err(unfit) => Err(PlanStop::Range { player: 1, unfit }),
        }
    }
}
