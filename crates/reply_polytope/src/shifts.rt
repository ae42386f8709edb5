// The shift of a player's payoffs.
ghost use Rattle.std.specs.Prelude.{◌≡◌, ◌<◌, length};
ghost use Rattle.answers.specs.Answers.{Gives, map_ok};
ghost use Rattle.rational.specs.Extremes.{IsLeast};
ghost use Rattle.game_theory.specs.Profiles.{profile_count};
ghost use Rattle.game_core.specs.Table.{game_of, strategy_counts, IsTable};
ghost use Rattle.reply_polytope.specs.declared.stop.PolyStop.TheVariants as stops;
ghost use Rattle.reply_polytope.specs.Shapes.{shifted_payoffs_in};
ghost use Rattle.reply_polytope.specs.Shifts.{payoffs_of};

use crate::stop::PolyStop;
use frac128::Frac;
use game_core::Table;
use std::alloc::Global;

// The least of a player's payoffs.
fn least_payoff(table: &Table, player: usize, profiles: usize) -> Frac
    requires player { player < length table.now.players }
    requires profiles { profiles ≡ profile_count (strategy_counts table.now) }
    requires some { 0 < profiles }
    ensures { IsLeast (payoffs_of (game_of table.now) player) result }
{
    let mut least = table.payoff_at(0, player);
    for profile in 1..profiles {
        let other = table.payoff_at(profile, player);
        least = least.min(other);
    }
    least
}

/// A player's payoffs, each with 1 less the least of them added.
pub(crate) fn shifted_payoffs(
    alloc: Global,
    table: &Table,
    player: u32,
    profiles: usize,
) -> Result<Vec<Frac>, PolyStop>
    requires player { player < length table.now.players }
    requires profiles { profiles ≡ profile_count (strategy_counts table.now) }
    requires some { 0 < profiles }
    requires valid { IsTable table.now }
    ensures { Gives stops.Memory (shifted_payoffs_in (game_of table.now) player)
        (map_ok result (λ shifted. shifted.items)) }
{
    let least = least_payoff(table, player as usize, profiles);
    let shift = match Frac::one().sub(least) {
        Ok(shift) => shift,
        Err(unfit) => {
            return Err(PolyStop::Range {
                player,
                profile: 0,
                unfit,
            });
        }
    };
    let mut shifted = Vec::with_capacity(alloc, profiles)?;
    for profile in 0..profiles {
        match table.payoff_at(profile, player as usize).add(shift) {
            Ok(sum) => shifted.push(sum)?,
            Err(unfit) => {
                return Err(PolyStop::Range {
                    player,
                    profile: profile as u32,
                    unfit,
                });
            }
        }
    }
    Ok(shifted)
}
