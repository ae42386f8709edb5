// The draws of the generator, as payoffs: a linear congruential generator modulo 2^31, with the
// multiplier 1103515245 and the increment 12345. Source: the example of `rand` in ISO C.
ghost use Rattle.std.specs.Prelude.{◌≡◌, pos, IfOk};
ghost use Rattle.rational.specs.Rational.{whole};
ghost use Rattle.game_core.specs.MadeTables.{next_state, digit_of, made_payoffs};

use answers::Memory;
use frac128::Frac;
use std::alloc::Global;

// The state that follows a state: its product with the multiplier, plus the increment, modulo 2^31.
fn next_state(state: u32) -> u32
    ensures { result ≡ next_state state }
{
    ((state as u64 * 1103515245 + 12345) % 2147483648) as u32
}

// The payoff that a state gives: the last decimal digit of what stands before its last 16 bits.
fn payoff(state: u32) -> Frac
    ensures { result ≡ whole (pos (digit_of state)) }
{
    Frac::over((state / 65536 % 10) as i128, 1)
}

/// The first draws from a seed.
pub(crate) fn made_payoffs(alloc: Global, seed: u32, count: usize) -> Result<Vec<Frac>, Memory>
    ensures { IfOk result (λ payoffs. payoffs.items ≡ made_payoffs seed count) }
{
    let mut payoffs = Vec::with_capacity(alloc, count)?;
    let mut state = seed;
    for _ in 0..count {
        state = next_state(state);
        payoffs.push(payoff(state))?;
    }
    Ok(payoffs)
}
