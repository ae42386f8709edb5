// The payoffs of a reduced form.
ghost use Rattle.std.specs.Prelude.{◌≡◌, ◌≤◌, ◌*◌, ◌++◌, length, map, IfOk, OnOk};
ghost use Rattle.answers.specs.Answers.{Gives, map_ok, refused_by};
ghost use Rattle.game_theory.specs.Behaviour.{payoff, pure};
ghost use Rattle.game_theory.specs.Profiles.{profile_count};
ghost use Rattle.game_core.specs.Table.{most_payoffs};
ghost use Rattle.game_core.specs.TreeGame.{game_of_tree};
ghost use Rattle.game_theory.specs.Lines.{listed};
ghost use Rattle.pure_payoffs.specs.Choices.{AreChoices};
ghost use Rattle.pure_payoffs.specs.Plays.{choice_of, game_of};
ghost use Rattle.pure_payoffs.specs.Stops.{payoffs_fit};
ghost use Rattle.reduced_strategies.specs.Places.{ArePlaces};
ghost use Rattle.reduced_strategies.specs.StrategicForm.{AreStrategies};
ghost use Rattle.reduced_form.specs.Cells.{AreCells, at_profile};
ghost use Rattle.reduced_form.specs.Stops.{cells_in};
ghost use Rattle.reduced_form.specs.declared.stop.ReduceStop.TheVariants as stops;
ghost use Rattle.game_theory.specs.Children.{AreChildren};

use crate::stop::ReduceStop;
use crate::strategies::Strategies;
use frac128::Frac;
use game_core::{Tree, profile_count, set_profile, trees_are_game_trees};
use pure_payoffs::{Choices, PayoffStop, Play, Shortcuts, children_of_all};
use std::alloc::Global;

// Why a form has no payoffs, by why the profile with this number has none.
fn at_profile(profile: u32, stop: PayoffStop) -> ReduceStop
    ensures { result ≡ at_profile profile stop }
{
    match stop {
        PayoffStop::Range { player, unfit } => ReduceStop::Range {
            profile,
            player,
            unfit,
        },
        PayoffStop::Memory => ReduceStop::Memory,
    }
}

// Adds what the profile with this number pays each player.
fn push_cells(
    play: &Play,
    shortcuts: &mut Shortcuts,
    payoffs: &mut Vec<Frac>,
    number: u32,
) -> Result<(), ReduceStop>
    requires children { AreChildren (game_of play.now)
        (map (λ v. v.items) play.now.children.now) }
    requires choices { AreChoices (game_of play.now) play.now.choices }
    requires tree { shortcuts.old ≡ play.now.tree.now }
    ensures tree { shortcuts.new ≡ shortcuts.old }
    ensures cells { let t = game_of play.now in
        let choice = choice_of play.now in
        OnOk result
        (payoffs.new.items ≡ payoffs.old.items ++ listed t.players (payoff t (pure choice))) }
    ensures stop { Gives stops.Memory
        (refused_by (at_profile number) (payoffs_fit (game_of play.now) (choice_of play.now)))
        result }
{
    play.push_payoffs(shortcuts, payoffs)
        .map_err(|stop| at_profile(number, stop))
}

/// What each profile pays each player, profiles in file order. `places` has each set's place among
/// its owner's own sets, and `counts` how many strategies each player has.
pub(crate) fn cells(
    alloc: Global,
    tree: &Tree,
    places: &[u32],
    strategies: &Strategies,
    counts: &[usize],
) -> Result<Vec<Frac>, ReduceStop>
    requires places { ArePlaces (game_of_tree tree.now) places.now }
    requires strategies { AreStrategies (game_of_tree tree.now) strategies.now }
    requires counts { counts.now ≡ map length strategies.now }
    requires few { length tree.now.players * profile_count counts.now ≤ most_payoffs }
    ensures so_many { IfOk result (λ payoffs. length payoffs.items
        ≡ length tree.now.players * profile_count counts.now) }
    ensures cells { IfOk result
        (λ payoffs. AreCells (game_of_tree tree.now) strategies.now payoffs.items) }
    ensures fit { Gives stops.Memory (cells_in (game_of_tree tree.now) strategies.now)
        (map_ok result (λ _. tt)) }
{
    trees_are_game_trees();
    let players = tree.players().len();
    let children = children_of_all(alloc, tree)?;
    let profiles = profile_count(counts);
    let mut profile = vec![in alloc; 0; counts.len()]?;
    let mut shortcuts = Shortcuts::new(alloc, tree)?;
    let mut payoffs = Vec::with_capacity(alloc, players * profiles)?;
    for number in 0..profiles {
        set_profile(&mut profile, counts, number);
        let choices = Choices::Reduced {
            places,
            strategies: strategies.lists(),
            profile: &profile,
        };
        let play = Play {
            tree,
            children: &children,
            choices,
        };
        push_cells(&play, &mut shortcuts, &mut payoffs, number as u32)?;
    }
    Ok(payoffs)
}
