// The sizes of a reduced form, counted before it is built.
ghost use Rattle.std.specs.Prelude.{◌≡◌, ◌≤◌, ◌*◌, length, Err, IfOk, IfErr, OnOk};
ghost use Rattle.answers.specs.Answers.{Gives};
ghost use Rattle.game_theory.specs.Profiles.{profile_count};
ghost use Rattle.game_core.specs.Table.{most_payoffs};
ghost use Rattle.game_core.specs.TreeGame.{game_of_tree};
ghost use Rattle.reduced_form.specs.declared.stop.ReduceStop.TheVariants as stops;
ghost use Rattle.reduced_form.specs.Counts.{AreCounted, counts_in};
ghost use Rattle.reduced_form.specs.Limits.{choices_of, most_choices};
ghost use Rattle.game_core.specs.Limits.{first_above};
ghost use Rattle.game_core.specs.declared.too_large.What.TheVariants as what;

use crate::stop::ReduceStop;
use game_core::{MOST_PAYOFFS, TooLarge, Tree, What, trees_are_game_trees};
use std::alloc::Global;
use strategy_lists::Decisions;

// The most choices of a reduced form.
const MOST_CHOICES: u64 = 67_108_864;

fn too_many_payoffs() -> ReduceStop
    ensures { result ≡ stops.TooLarge (first_above what.Payoffs most_payoffs) }
{
    ReduceStop::TooLarge(TooLarge::first_above(What::Payoffs, MOST_PAYOFFS as u64))
}

fn too_many_choices() -> ReduceStop
    ensures { result ≡ stops.TooLarge (first_above what.Choices most_choices) }
{
    ReduceStop::TooLarge(TooLarge::first_above(What::Choices, MOST_CHOICES))
}

/// How many reduced strategies each player has, where the form has no more payoffs than it may.
/// Nothing is built, and counting stops where it is known to have more.
pub(crate) fn count_all(alloc: Global, decisions: &Decisions) -> Result<Vec<usize>, ReduceStop>
    ensures counted { IfOk result (λ counts. AreCounted (game_of_tree decisions.now) counts.items) }
    ensures few { IfOk result
        (λ counts. length decisions.now.players * profile_count counts.items ≤ most_payoffs) }
    ensures stop { IfErr result
        (λ stop. Gives stops.Memory (counts_in (game_of_tree decisions.now)) (Err stop)) }
{
    trees_are_game_trees();
    let players = decisions.tree().players().len();
    if players > MOST_PAYOFFS {
        return Err(too_many_payoffs());
    }
    let mut counts = Vec::new(alloc);
    let mut payoffs = players;
    for player in 0..players {
        let most = MOST_PAYOFFS / payoffs;
        let count = decisions.count(alloc, player as u32, most)?;
        if count > most {
            return Err(too_many_payoffs());
        }
        payoffs *= count;
        counts.push(count)?;
    }
    Ok(counts)
}

/// That the form has no more choices than it may, where the players have so many strategies.
pub(crate) fn check_choices(tree: &Tree, counts: &[usize]) -> Result<(), ReduceStop>
    requires counted { AreCounted (game_of_tree tree.now) counts.now }
    requires few { length tree.now.players * profile_count counts.now ≤ most_payoffs }
    ensures few { OnOk result (choices_of (game_of_tree tree.now) counts.now ≤ most_choices) }
    ensures stop { IfErr result
        (λ stop. Gives stops.Memory (counts_in (game_of_tree tree.now)) (Err stop)) }
{
    trees_are_game_trees();
    let mut choices = 0;
    for player in 0..tree.players().len() {
        choices += counts[player] as u64 * tree.sets_of(player as u32).len() as u64;
        if choices > MOST_CHOICES {
            return Err(too_many_choices());
        }
    }
    Ok(())
}
