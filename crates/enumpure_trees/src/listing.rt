// The text of the pure equilibria of a tree.
ghost use Rattle.std.specs.Prelude.{◌≡◌, ◌<◌, ◌++◌, ℕ, List, length, map, IfOk, OnOk, replicate};
ghost use Rattle.answers.specs.Answers.{Gives, IsSingle, map_ok};
ghost use Rattle.answers.specs.Answered.{IsAnswered};
ghost use Rattle.game_theory.specs.Profiles.{IsProfile, profile_count, number_of, strategies_at};
ghost use Rattle.game_theory.specs.Lines.{line_text};
ghost use Rattle.game_theory.specs.Trees.{IsTree, Tree as game_tree};
ghost use Rattle.game_core.specs.TreeGame.{game_of_tree};
ghost use Rattle.reduced_strategies.specs.StrategicForm.{AreStrategies};
ghost use Rattle.reduced_form.specs.ReducedForm.{IsReducedForm};
ghost use Rattle.enumpure_trees.specs.Listing.{listed_text};
ghost use Rattle.game_theory.specs.Ranks.{ranked};
ghost use Rattle.enumpure_trees.specs.TreeEquilibria.{profile_line};
ghost use Rattle.enumpure.specs.Replies.{plays_best};
ghost use Rattle.enumpure.specs.declared.listing.ListStop.TheVariants as stops;
ghost use Rattle.enumpure_trees.specs.Stops.{behaviour_text};

use crate::orders::orders_of_all;
use answers::Memory;
use behaviour_profile::Behaviour;
use enumpure::{ListStop, mutual_best_replies};
use game_core::{MOST_TEXT, Tree, too_long_text, trees_are_game_trees};
use ne_printer::{line, push_line};
use reduced_form::Reduced;
use std::alloc::Global;
use std::marker::Model;

// What the lines are of: a tree and its reduced form, the order of each player's strategies, and
// for each profile, by its number, whether it is an equilibrium.
#[derive(Drop)]
struct Lines<'a> {
    tree: &'a Tree,
    reduced: &'a Reduced,
    orders: &'a [Vec<u32>],
    all_best: &'a [bool],
}

impl<'a> Model for Lines<'a> {
    ghost use Rattle.std.specs.Prelude.{map};
    ghost use Rattle.enumpure_trees.specs.Listing.{IsListing, Listing, listing};

    ghost Value = { Listing };

    ghost view = { λ l. listing l.tree.now l.reduced.now
        (map (λ v. v.items) l.orders.now) l.all_best.now };

    ghost invariant = { λ l. IsListing
        (listing l.tree.now l.reduced.now (map (λ v. v.items) l.orders.now) l.all_best.now) };
}

// The profile in which each player plays the first strategy.
fn first_profile(alloc: Global, players: usize) -> Result<Vec<u32>, Memory>
    ensures { IfOk result (λ profile. profile.items ≡ replicate players 0) }
{
    Ok(vec![in alloc; 0; players]?)
}

// Writes the profile with a rank in the order of lines, in which the strategies of each player
// stand in their order.
fn set_ordered(profile: &mut [u32], orders: &[Vec<u32>], profiles: usize, rank: usize)
    requires players { length profile.old ≡ length orders.now }
    requires profiles { profiles ≡ profile_count (map length (map (λ v. v.items) orders.now)) }
    requires rank { rank < profiles }
    ensures { profile.new
        ≡ strategies_at (map (λ v. v.items) orders.now)
        (ranked (map length (map (λ v. v.items) orders.now)) rank) }
{
    let mut later = profiles;
    let mut rest = rank;
    for player in 0..orders.len() {
        later /= orders[player].len();
        profile[player] = orders[player][rest / later];
        rest %= later;
    }
}

// How many bytes the line of each profile has: as many as that of the given one.
fn line_length(
    alloc: Global,
    tree: &Tree,
    reduced: &Reduced,
    profile: &[u32],
) -> Result<usize, Memory>
    requires tree { IsTree (game_of_tree tree.now) }
    requires form { IsReducedForm tree.now reduced.now }
    requires profile { IsProfile (map length reduced.now.choices) profile.now }
    ensures some { IfOk result (λ bytes. 0 < bytes) }
    ensures each { IfOk result (λ bytes. (other : List ℕ)
        → IsProfile (map length reduced.now.choices) other
        → length (line_text (profile_line (game_of_tree tree.now) reduced.now.choices other))
        ≡ bytes) }
{
    let behaviour = Behaviour::from_reduced(alloc, tree, reduced, profile)?;
    Ok(line(alloc, behaviour.entries())?.len())
}

impl<'a> Lines<'a> {
    // Whether a profile is an equilibrium.
    fn is_mutual(&self, profile: &[u32]) -> bool
        requires { IsProfile (map length self.now.reduced.choices) profile.now }
        ensures { result
            ≡ plays_best self.now.all_best
            (number_of (map length self.now.reduced.choices) profile.now) }
    {
        self.all_best[self.reduced.table().profile_number(profile)]
    }

    // Adds the lines of the profiles of best replies in the order of their ranks. Writes over
    // `profile`.
    fn push(&self, alloc: Global, text: &mut Vec<u8>, profile: &mut [u32]) -> Result<(), Memory>
        requires { length profile.old ≡ length self.now.orders }
        ensures { OnOk result (text.new.items ≡ text.old.items ++ listed_text self.now) }
    {
        for rank in 0..self.all_best.len() {
            set_ordered(profile, self.orders, self.all_best.len(), rank);
            if self.is_mutual(profile) {
                let behaviour = Behaviour::from_reduced(alloc, self.tree, self.reduced, profile)?;
                push_line(alloc, text, behaviour.entries())?;
            }
        }
        Ok(())
    }

    // The lines of the profiles of best replies, in a text that has room for so many bytes from the
    // start. Writes over `profile`.
    fn text(&self, alloc: Global, profile: &mut [u32], bytes: usize) -> Result<Vec<u8>, Memory>
        requires { length profile.old ≡ length self.now.orders }
        ensures { IfOk result (λ text. text.items ≡ listed_text self.now) }
    {
        let mut text = Vec::with_capacity(alloc, bytes)?;
        self.push(alloc, &mut text, profile)?;
        Ok(text)
    }
}

/// The lines of the pure equilibria of a tree: each pure profile of the reduced strategic form at
/// which no player has a strategy with a greater payoff, once, as behaviour with the first action
/// at each set to which the player's strategy gives none, in descending order of the lines'
/// entries. `reduced` is the tree's reduced form.
///
/// # Errors
///
/// `TooLarge` exactly where the lines have more than 67,108,864 bytes, which are counted before any
/// line is written; `Memory` where memory ran out.
pub fn list_pure_behaviours(
    alloc: Global,
    tree: &Tree,
    reduced: &Reduced,
) -> Result<Vec<u8>, ListStop>
    requires form { IsReducedForm tree.now reduced.now }
    ensures { Gives stops.Memory (behaviour_text (game_of_tree tree.now) reduced.now.choices)
        (map_ok result (λ text. text.items)) }
{
    trees_are_game_trees();
    let all_best = mutual_best_replies(alloc, reduced.table())?;
    let orders = orders_of_all(alloc, tree, reduced)?;
    let mut profile = first_profile(alloc, tree.players().len())?;
    let each = line_length(alloc, tree, reduced, &profile)?;
    let count = all_best.iter().filter(|all_best| **all_best).count();
    if count > MOST_TEXT / each {
        return Err(ListStop::TooLarge(too_long_text()));
    }
    let lines = Lines {
        tree,
        reduced,
        orders: &orders,
        all_best: &all_best,
    };
    Ok(lines.text(alloc, &mut profile, count * each)?)
}

/// A tree has at most one answer: the text, or that it is too long.
pub fn behaviour_texts_are_single()
    ensures { (t : game_tree) (strategies : List (List (List ℕ)))
        → IsSingle (behaviour_text t strategies) }
{}

/// A tree has an answer by its reduced strategies.
pub fn behaviour_texts_are_answered()
    ensures { (t : game_tree) (strategies : List (List (List ℕ))) → IsTree t
        → AreStrategies t strategies → IsAnswered (behaviour_text t strategies) }
{}
