// Entries in groups, tested.
ghost use Rattle.std.specs.Prelude.{
  ◌≡◌,
  ◌+◌,
  ◌<◌,
  ◌≤◌,
  ◌↔◌,
  ◌^◌,
  ℕ,
  List,
  length,
  sum,
  IfOk,
  IsTrue,
  MatchOption,
};
ghost use Rattle.answers.specs.Answered.{IsAnswered};
ghost use Rattle.answers.specs.Answers.{IsSingle, map_ok, refused_by};
ghost use Rattle.rational.specs.Rational.{ℚ};
ghost use Rattle.game_core.specs.TreeGame.{game_of_tree};
ghost use Rattle.game_theory.specs.OwnSets.{action_counts, own_counts};
ghost use Rattle.behaviour_profile.specs.EntryLaws.{
  TestedEntriesAreBehaviours,
  TestedEntriesAreProfiles,
};
ghost use Rattle.behaviour_profile.specs.EntryTests.{
  all_pass,
  fault_of,
  group_in,
  profile_in,
  tests_from,
};

use crate::Behaviour;
use frac128::{Frac, Unfit};
use game_core::Tree;

/// What is wrong with the entries of a profile. A group is one player's strategies, or the actions
/// of one set; places and groups count from 0.
#[derive(Clone, Copy, Debug, PartialEq, Eq)]
pub enum ProfileFault {
    /// There are too few entries, or too many.
    Count,
    /// The entry at a place is negative.
    Negative {
        /// The place.
        place: u32,
    },
    /// The entries of a group do not sum to 1.
    Sum {
        /// The group.
        group: u32,
    },
    /// An entry cannot be added to those before it in its group.
    Unfit(Unfit),
}

impl From<Unfit> for ProfileFault {
    ghost use Rattle.std.specs.Prelude.{◌≡◌};
    ghost use Rattle.behaviour_profile.specs.declared.entries.ProfileFault.TheVariants as faults;

    ghost from_gives = { λ unfit e. e ≡ faults.Unfit unfit };

    fn from(unfit: Unfit) -> ProfileFault {
        ProfileFault::Unfit(unfit)
    }
}

// A place among the entries, and the group that begins there.
#[derive(Clone, Copy)]
struct Position {
    place: u32,
    group: u32,
}

/// Tests a group of so many entries, which stand from a place on: none is negative, each can be
/// added to those before it, and their sum is 1. Takes no memory.
///
/// # Errors
///
/// What is wrong first: at an entry `Negative`, and else `Unfit`, and after all entries `Sum`.
pub fn test_group(entries: &[Frac], place: u32, group: u32, count: u32) -> Result<(), ProfileFault>
    requires within { place + count ≤ length entries.now }
    requires few { place + count < 2 ^ 32 }
    ensures { group_in entries.now place group count result }
{
    let mut sum = Frac::zero();
    for k in 0..count {
        let entry = entries[(place + k) as usize];
        if entry.signum() < 0 {
            return Err(ProfileFault::Negative { place: place + k });
        }
        sum = sum.add(entry)?;
    }
    if sum == Frac::one() {
        Ok(())
    } else {
        Err(ProfileFault::Sum { group })
    }
}

// How many of these entries are left after those of a player; nothing where the player's are more.
fn left_by(tree: &Tree, player: u32, count: usize) -> Option<usize>
    ensures { let own = sum (own_counts (game_of_tree tree.now) player) in
        MatchOption result (count < own) (λ left. left + own ≡ count) }
{
    let mut left = count;
    for set in tree.sets_of(player) {
        left = left.checked_sub(tree.sets()[*set as usize].actions().len())?;
    }
    Some(left)
}

// Whether behaviour on a tree has so many entries.
fn is_count(tree: &Tree, count: usize) -> bool
    ensures { IsTrue result ↔ (count ≡ sum (action_counts (game_of_tree tree.now))) }
{
    let mut left = count;
    for player in 0..tree.players().len() {
        match left_by(tree, player as u32, left) {
            Some(rest) => left = rest,
            None => return false,
        }
    }
    left == 0
}

// Tests the entries of a player, which stand from a place and a group on, and gives the position
// after them.
fn test_player(
    tree: &Tree,
    player: u32,
    entries: &[Frac],
    place: u32,
    group: u32,
) -> Result<Position, ProfileFault>
    requires within { place + sum (own_counts (game_of_tree tree.now) player) ≤ length entries.now }
    requires few { place + sum (own_counts (game_of_tree tree.now) player) < 2 ^ 32 }
    requires groups { group + length (own_counts (game_of_tree tree.now) player) < 2 ^ 32 }
    ensures place { let own = own_counts (game_of_tree tree.now) player in
        IfOk result (λ following. following.place ≡ place + sum own) }
    ensures group { let own = own_counts (game_of_tree tree.now) player in
        IfOk result (λ following. following.group ≡ group + length own) }
    ensures tests { let own = own_counts (game_of_tree tree.now) player in
        refused_by fault_of (all_pass (tests_from entries.now place group own))
        (map_ok result (λ _. tt)) }
{
    let mut here = place;
    let mut number = group;
    for set in tree.sets_of(player) {
        let count = tree.sets()[*set as usize].actions().len() as u32;
        test_group(entries, here, number, count)?;
        here += count;
        number += 1;
    }
    Ok(Position {
        place: here,
        group: number,
    })
}

// Tests the entries of all players.
fn test_players(tree: &Tree, entries: &[Frac]) -> Result<(), ProfileFault>
    requires { length entries.now ≡ sum (action_counts (game_of_tree tree.now)) }
    ensures { let counts = action_counts (game_of_tree tree.now) in
        refused_by fault_of (all_pass (tests_from entries.now 0 0 counts)) result }
{
    tree.stands_for_game_tree();
    let mut position = Position { place: 0, group: 0 };
    for player in 0..tree.players().len() {
        position = test_player(tree, player as u32, entries, position.place, position.group)?;
    }
    Ok(())
}

impl Behaviour {
    /// The behaviour on a tree with these entries: player by player, each player's own sets in
    /// order, and the probability of each action in order. Takes no memory.
    ///
    /// # Errors
    ///
    /// What is wrong first. `Count` where the entries are not as many as the players' actions. Else
    /// set by set and entry by entry `Negative`, or `Unfit` where it cannot be added to those
    /// before it at its set, and after each set's entries `Sum` where they do not sum to 1.
    pub fn try_new(tree: &Tree, entries: Vec<Frac>) -> Result<Behaviour, ProfileFault>
        ensures { profile_in (action_counts (game_of_tree tree.now)) entries.items result }
    {
        if !is_count(tree, entries.len()) {
            return Err(ProfileFault::Count);
        }
        test_players(tree, entries.as_slice())?;
        Ok(Behaviour { entries })
    }
}

/// Entries have at most one answer: that they are all right, or what is wrong with them first.
pub fn profiles_are_single()
    ensures { (sizes : List ℕ) (entries : List ℚ) → IsSingle (profile_in sizes entries) }
{}

/// The entries of a group have at most one answer: that they are all right, or what is wrong with
/// them first.
pub fn groups_are_single()
    ensures { (entries : List ℚ) (place group n : ℕ) → IsSingle (group_in entries place group n) }
{}

/// Entries have an answer: that they are all right, or what is wrong with them first.
pub fn profiles_are_answered()
    ensures { (sizes : List ℕ) (entries : List ℚ) → IsAnswered (profile_in sizes entries) }
{}

/// Entries that are all right are those of a valid mixed profile.
pub fn tested_entries_are_profiles()
    ensures { TestedEntriesAreProfiles }
{}

/// Entries that are all right are those of valid behaviour on a tree.
pub fn tested_entries_are_behaviours()
    ensures { TestedEntriesAreBehaviours }
{}
