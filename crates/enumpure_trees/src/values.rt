// The values of nodes under each choice.
ghost use Rattle.std.specs.Prelude.{◌≡◌, ◌<◌, ◌≤◌, ◌++◌, ℕ, [], All, length, map, slice_index};
ghost use Rattle.std.specs.Prelude.{IfOk, MatchOption, OnOk};
ghost use Rattle.answers.specs.Answers.{Gives, map_ok, refused_by};
ghost use Rattle.game_core.specs.Limits.{counted_within};
ghost use Rattle.game_core.specs.Table.{most_payoffs};
ghost use Rattle.game_core.specs.TreeGame.{game_of_tree};
ghost use Rattle.game_core.specs.declared.too_large.What.TheVariants as what;
ghost use Rattle.game_theory.specs.Children.{AreChildren};
ghost use Rattle.game_theory.specs.Profiles.{profile_count};
ghost use Rattle.pure_payoffs.specs.Choices.{AreChoices};
ghost use Rattle.pure_payoffs.specs.Plays.{choice_of, game_of};
ghost use Rattle.pure_payoffs.specs.Stops.{all_values_fit, node_values};
ghost use Rattle.reduced_strategies.specs.Choices.{choice_at};
ghost use Rattle.game_theory.specs.OwnSets.{action_counts, player_sets};
ghost use Rattle.enumpure_trees.specs.Choices.{whole_choices};
ghost use Rattle.enumpure_trees.specs.PassingStops.{values_in};
ghost use Rattle.enumpure_trees.specs.Told.{at_choice};
ghost use Rattle.enumpure_trees.specs.Values.{choice_values, value_count};
ghost use Rattle.enumpure_trees.specs.declared.stop.ChoiceStop.TheVariants as stops;

use crate::stop::ChoiceStop;
use answers::Memory;
use frac128::Frac;
use game_core::{MOST_PAYOFFS, TooLarge, Tree, What, set_profile};
use pure_payoffs::{Choices, Play, Shortcuts, ValueStop, children_of_all};
use std::alloc::Global;

// The number of choices where they are no more than so many.
fn choices_within(counts: &[usize], most: usize) -> Option<usize>
    requires { All (λ n. 0 < n) counts.now }
    ensures { MatchOption result (most < profile_count counts.now)
        (λ choices. (choices ≡ profile_count counts.now) × (choices ≤ most)) }
{
    if most == 0 {
        return None;
    }
    let mut choices = 1;
    for count in counts {
        if *count > most / choices {
            return None;
        }
        choices *= *count;
    }
    Some(choices)
}

// The number of choices where the values at these nodes are within the limit on payoffs.
fn choice_count(tree: &Tree, counts: &[usize], nodes: &[u32]) -> Result<usize, ChoiceStop>
    requires counts { counts.now ≡ action_counts (game_of_tree tree.now) }
    requires some_node { 0 < length nodes.now }
    ensures choices { IfOk result (λ choices. choices ≡ whole_choices (game_of_tree tree.now)) }
    ensures within { refused_by stops.TooLarge
        (counted_within what.Payoffs most_payoffs (value_count (game_of_tree tree.now) nodes.now))
        (map_ok result (λ _. tt)) }
{
    tree.stands_for_game_tree();
    let players = tree.players().len();
    if players == 0 {
        return Ok(1);
    }
    match choices_within(counts, MOST_PAYOFFS / players / nodes.len()) {
        Some(choices) => Ok(choices),
        None => Err(ChoiceStop::TooLarge(TooLarge::first_above(
            What::Payoffs,
            MOST_PAYOFFS as u64,
        ))),
    }
}

// So many zeros.
fn zeros(alloc: Global, count: usize) -> Result<Vec<u32>, Memory>
    ensures { IfOk result (λ numbers. length numbers.items ≡ count) }
{
    Ok(vec![in alloc; 0; count]?)
}

// Room for so many values.
fn free_values(alloc: Global, count: usize) -> Result<Vec<Frac>, Memory>
    ensures { IfOk result (λ values. values.items ≡ []) }
{
    Ok(Vec::with_capacity(alloc, count)?)
}

// Writes for each of these sets what is chosen there, and 0 for all others.
fn set_actions(actions: &mut [u32], sets: &[u32], choices: &[u32])
    requires within { All (λ s. s < length actions.old) sets.now }
    requires one_for_each { length choices.now ≡ length sets.now }
    ensures { (s : ℕ) → slice_index actions.new s ≡ choice_at sets.now choices.now s }
{
    actions.fill(0);
    for number in (0..sets.len()).rev() {
        actions[sets[number] as usize] = choices[number];
    }
}

// Why the values are not computed, by why those of the choice with this number are not.
fn at_choice(choice: u32, stop: ValueStop) -> ChoiceStop
    ensures { result ≡ at_choice choice stop }
{
    match stop {
        ValueStop::Range {
            node,
            player,
            unfit,
        } => ChoiceStop::Range {
            choice,
            node,
            player,
            unfit,
        },
        ValueStop::Memory => ChoiceStop::Memory,
    }
}

// Adds what these nodes are worth under the choice with this number.
fn push_choice(
    play: &Play,
    shortcuts: &mut Shortcuts,
    nodes: &[u32],
    values: &mut Vec<Frac>,
    choice: u32,
) -> Result<(), ChoiceStop>
    requires children { AreChildren (game_of play.now)
        (map (λ v. v.items) play.now.children.now) }
    requires choices { AreChoices (game_of play.now) play.now.choices }
    requires nodes { All (λ k. k < length play.now.tree.now.nodes) nodes.now }
    requires tree { shortcuts.old ≡ play.now.tree.now }
    ensures tree { shortcuts.new ≡ shortcuts.old }
    ensures values { OnOk result (values.new.items
        ≡ values.old.items ++ node_values (game_of play.now) (choice_of play.now) nodes.now) }
    ensures stop { Gives stops.Memory (refused_by (at_choice choice)
        (all_values_fit (game_of play.now) (choice_of play.now) nodes.now)) result }
{
    play.push_all_values(shortcuts, nodes, values)
        .map_err(|stop| at_choice(choice, stop))
}

/// The number of choices, and their values at these nodes: choice by choice, in each node by node,
/// and in each player by player. `sets` are the players' sets and `counts` has how many actions
/// each has.
///
/// # Errors
///
/// `TooLarge` exactly where the values are more than 1,048,576; `Range` exactly where they are not
/// and a step of one does not fit: the first; `Memory` where memory ran out.
pub(crate) fn choice_values(
    alloc: Global,
    tree: &Tree,
    sets: &[u32],
    counts: &[usize],
    nodes: &[u32],
) -> Result<(usize, Vec<Frac>), ChoiceStop>
    requires sets { sets.now ≡ player_sets (game_of_tree tree.now) }
    requires counts { counts.now ≡ action_counts (game_of_tree tree.now) }
    requires nodes { All (λ k. k < length tree.now.nodes) nodes.now }
    requires some_node { 0 < length nodes.now }
    ensures choices { IfOk result (λ it. it.0 ≡ whole_choices (game_of_tree tree.now)) }
    ensures few { IfOk result
        (λ _. value_count (game_of_tree tree.now) nodes.now ≤ most_payoffs) }
    ensures values { IfOk result
        (λ it. it.1.items ≡ choice_values (game_of_tree tree.now) nodes.now) }
    ensures stop { Gives stops.Memory (values_in (game_of_tree tree.now) nodes.now)
        (map_ok result (λ _. tt)) }
{
    tree.stands_for_game_tree();
    let choices = choice_count(tree, counts, nodes)?;
    let children = children_of_all(alloc, tree)?;
    let mut shortcuts = Shortcuts::new(alloc, tree)?;
    let mut profile = zeros(alloc, counts.len())?;
    let mut actions = zeros(alloc, tree.sets().len())?;
    let mut values = free_values(alloc, choices * (nodes.len() * tree.players().len()))?;
    for choice in 0..choices {
        set_profile(&mut profile, counts, choice);
        set_actions(&mut actions, sets, &profile);
        let chosen = Choices::Actions(&actions);
        let play = Play {
            tree,
            children: &children,
            choices: chosen,
        };
        push_choice(&play, &mut shortcuts, nodes, &mut values, choice as u32)?;
    }
    Ok((choices, values))
}
