// The lines of a solution's value and prices.
ghost use Rattle.std.specs.Prelude.{◌≡◌, ◌≤◌, suc, length, IfOk};
ghost use Rattle.answers.specs.Answers.{Gives, map_ok, refuse_where};
ghost use Rattle.rational.specs.Rational.{◌+ℚ◌};
ghost use Rattle.frac128.specs.Steps.{AddFits, step_of};
ghost use Rattle.game_theory.specs.Lines.{listed};
ghost use Rattle.game_core.specs.Limits.{most_rows};
ghost use Rattle.zero_sum_lp.specs.Parts.{first_prices, second_prices};
ghost use Rattle.two_player_tools.specs.Lp.{prices_in, prices_text};
ghost use Rattle.two_player_tools.specs.Solved.{HasSizesOf, solution_of};

use crate::solving::Solved;
use answers::Memory;
use frac128::{Frac, Op};
use ne_printer::push_numbers;
use refusals::{Refusal, Site};
use sequence_data::SeqForm;
use std::alloc::Global;
use zero_sum_lp::Optimum;

// The value: the price of the whole game and the least payoff together.
fn value(price: Frac, least: Frac) -> Result<Frac, Refusal>
    ensures value { IfOk result (λ value. value ≡ price +ℚ least) }
    ensures stage { refuse_where (¬ (AddFits price least))
        (Refusal.Range Site.Value (step_of Op.Add price least)) (map_ok result (λ _. tt)) }
{
    price.add(least).map_err(|unfit| Refusal::Range {
        site: Site::Value,
        unfit,
    })
}

// The prices of player one: that of the whole game, and then those of the player's sets, which are
// so many.
fn first_prices(alloc: Global, optimum: &Optimum, sets: u32) -> Result<Vec<Frac>, Memory>
    requires sets { sets ≡ length optimum.now.first.sets }
    requires few { sets ≤ most_rows }
    ensures { IfOk result (λ prices.
        prices.items ≡ listed (suc sets) (first_prices optimum.now)) }
{
    let mut prices = Vec::new(alloc);
    for set in 0..sets + 1 {
        prices.push(optimum.price_one(set))?;
    }
    Ok(prices)
}

// The prices of player two.
fn second_prices(alloc: Global, optimum: &Optimum, sets: u32) -> Result<Vec<Frac>, Memory>
    requires sets { sets ≡ length optimum.now.second.sets }
    requires few { sets ≤ most_rows }
    ensures { IfOk result (λ prices.
        prices.items ≡ listed (suc sets) (second_prices optimum.now)) }
{
    let mut prices = Vec::new(alloc);
    for set in 0..sets + 1 {
        prices.push(optimum.price_two(set))?;
    }
    Ok(prices)
}

// The lines of the value, the least payoff and both players' prices.
fn prices_text(
    alloc: Global,
    form: &SeqForm,
    solved: &Solved,
    value: Frac,
) -> Result<Vec<u8>, Memory>
    requires sizes { HasSizesOf form.now solved.now }
    requires value { value ≡ (solution_of form.now solved.now).value }
    ensures { IfOk result (λ text.
        text.items ≡ prices_text form.now (solution_of form.now solved.now)) }
{
    let one = first_prices(alloc, &solved.optimum, form.first().sets().len() as u32)?;
    let two = second_prices(alloc, &solved.optimum, form.second().sets().len() as u32)?;
    let mut text = Vec::new(alloc);
    push_numbers(alloc, &mut text, b"VALUE", &[value])?;
    push_numbers(alloc, &mut text, b"LEAST", &[form.least_one()])?;
    push_numbers(alloc, &mut text, b"PRICES,1", &one)?;
    push_numbers(alloc, &mut text, b"PRICES,2", &two)?;
    Ok(text)
}

/// The lines of a solution's value and prices, where they are asked for.
pub(crate) fn price_lines(
    alloc: Global,
    prices: bool,
    form: &SeqForm,
    solved: &Solved,
) -> Result<Vec<u8>, Refusal>
    requires { HasSizesOf form.now solved.now }
    ensures { Gives Refusal.Memory
        (prices_in prices form.now (solution_of form.now solved.now))
        (map_ok result (λ lines. lines.items)) }
{
    if !prices {
        return Ok(Vec::new(alloc));
    }
    let value = value(solved.optimum.price_two(0), form.least_one())?;
    Ok(prices_text(alloc, form, solved, value)?)
}
