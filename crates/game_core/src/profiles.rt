// Pure profiles and their numbers.
ghost use Rattle.std.specs.Prelude.{◌≡◌, ◌<◌, ◌≤◌, ◌++◌, length, All, OnOk};
ghost use Rattle.game_theory.specs.Lines.{listed};
ghost use Rattle.game_theory.specs.Mixed.{sure};
ghost use Rattle.game_theory.specs.Profiles.{profile_count, profile_at};
ghost use Rattle.game_core.specs.Table.{most_payoffs};

use answers::Memory;
use frac128::Frac;

/// How many pure profiles there are, where the players have so many strategies.
pub fn profile_count(counts: &[usize]) -> usize
    requires few { profile_count counts.now ≤ most_payoffs }
    requires some { All (λ n. 0 < n) counts.now }
    ensures { result ≡ profile_count counts.now }
{
    let mut profiles = 1;
    for count in counts {
        profiles *= *count;
    }
    profiles
}

/// Writes the pure profile with a number in file order, in which the first player's strategy
/// changes fastest, where the players have so many strategies.
pub fn set_profile(profile: &mut [u32], counts: &[usize], number: usize)
    requires players { length profile.old ≡ length counts.now }
    requires few { All (λ n. n ≤ most_payoffs) counts.now }
    requires some { All (λ n. 0 < n) counts.now }
    ensures { profile.new ≡ profile_at counts.now number }
{
    let mut rest = number;
    for player in 0..counts.len() {
        profile[player] = (rest % counts[player]) as u32;
        rest /= counts[player];
    }
}

/// Adds the probabilities of so many strategies or actions, of which one is surely chosen: 1 for
/// that one, which counts from 0, and 0 for the others.
///
/// # Errors
///
/// Memory ran out. What the list then holds is not said.
pub fn push_sure(entries: &mut Vec<Frac>, count: usize, chosen: usize) -> Result<(), Memory>
    ensures { OnOk result (entries.new.items ≡ entries.old.items ++ listed count (sure chosen)) }
{
    for place in 0..count {
        let entry = if place == chosen {
            Frac::one()
        } else {
            Frac::zero()
        };
        entries.push(entry)?;
    }
    Ok(())
}
