//! Behaviour on a tree: the probability of each action at each player's information set.
//!
//! Callers may rely on: `Behaviour::from_reduced` and `from_plans` give the behaviour of a profile
//! and of plans; `try_new` takes the entries that pass all tests; `tested_entries_are_behaviours`.
//! `starts_of` gives where the entries of each player's set begin; `from_lists` joins lists of
//! probabilities, one for each set, and `at_set` takes one out.
//! Definitions: `specs::EntryTests` has groups of entries and their tests, `EntryLaws` what holds
//! of tested entries, `Plans` the behaviour of two plans and its steps, `EntryStarts` where the
//! entries of a player's sets begin (`AreStarts`), `ListedBehaviour` behaviour by lists.
//! Private words: `specs::FirstActions` and `specs::Shares`, how entries are made.
//! Lemmas for callers: `proofs::GroupListLemmas`, `FirstFaultLemmas`, `ProfileAnswerLemmas`,
//! `TestedEntryLemmas`, `BehaviourEntryLemmas` and `EntryStartLemmas` on entries, `PlanStopLemmas`
//! on plans.
//! A change here touches: `enumpure_trees`, `verdicts`, `ne_checker`, `two_player_tools`,
//! `gambit_tools` and `refusals`.
#![tactic(auto)]

ghost use Rattle.std.specs.Prelude.{◌≡◌, ◌++◌, length, map, IfOk, OnOk};
ghost use Rattle.game_theory.specs.Profiles.{IsProfile};
ghost use Rattle.game_theory.specs.Behaviour.{pure};
ghost use Rattle.game_core.specs.TreeGame.{game_of_tree};
ghost use Rattle.reduced_strategies.specs.StrategicForm.{completed};
ghost use Rattle.reduced_form.specs.ReducedForm.{IsReducedForm};
ghost use Rattle.behaviour_profile.specs.FirstActions.{first_for_none};
ghost use Rattle.game_theory.specs.OwnSets.{own_sets};
ghost use Rattle.game_theory.specs.TreeEntries.{entries_at, tree_entries};

mod entries;
mod listed;
mod plans;
mod starts;

use answers::Memory;
pub use entries::{
    ProfileFault, groups_are_single, profiles_are_answered, profiles_are_single, test_group,
    tested_entries_are_behaviours, tested_entries_are_profiles,
};
use frac128::Frac;
use game_core::{Tree, push_sure};
pub use plans::{BehaviourStop, plan_behaviours_are_answered, plan_behaviours_are_single};
use reduced_form::Reduced;
pub use starts::starts_of;
use std::alloc::Global;
use std::marker::Model;

/// Behaviour on a tree. Contracts see it as the list of its entries: player by player, each
/// player's own sets in order, and the probability of each action in order.
#[derive(Debug, Drop)]
pub struct Behaviour {
    entries: Vec<Frac>,
}

impl Model for Behaviour {
    ghost use Rattle.std.specs.Prelude.{List};
    ghost use Rattle.std.specs.Coded.{coded_list};
    ghost use Rattle.rational.specs.Rational.{ℚ};
    ghost use Rattle.rational.proofs.CodeLemmas.{code_ℚ};

    ghost Value = { List ℚ };

    ghost coded = { coded_list code_ℚ };

    ghost view = { λ b. b.entries.items };
}

impl Behaviour {
    ghost use Rattle.std.specs.Prelude.{◌≡◌, slice_get};

    /// The entry at a place, from 0; nothing exactly past the end. Takes no memory.
    pub fn entry(&self, place: u32) -> Option<Frac>
        ensures { result ≡ slice_get self.now place }
    {
        let entry = self.entries.get(place as usize)?;
        Some(*entry)
    }

    /// All entries.
    pub fn entries(&self) -> &[Frac]
        ensures { result.now ≡ self.now }
    {
        self.entries.as_slice()
    }

    /// The behaviour of a pure profile of reduced strategies: at each own set the strategy's action
    /// has probability 1, and where it has none the first action. `reduced` is the tree's reduced
    /// form, and `profile` has for each player the number of the strategy, from 0.
    ///
    /// # Errors
    ///
    /// Memory ran out.
    pub fn from_reduced(
        alloc: Global,
        tree: &Tree,
        reduced: &Reduced,
        profile: &[u32],
    ) -> Result<Behaviour, Memory>
        requires form { IsReducedForm tree.now reduced.now }
        requires profile { IsProfile (map length reduced.now.choices) profile.now }
        ensures { IfOk result
            (λ behaviour. behaviour
            ≡ tree_entries (game_of_tree tree.now)
            (pure (completed (game_of_tree tree.now) reduced.now.choices profile.now))) }
    {
        let mut entries = Vec::new(alloc);
        for player in 0..tree.players().len() {
            let strategy = &reduced.choices().lists()[player][profile[player] as usize];
            push_player(&mut entries, tree, player as u32, strategy)?;
        }
        Ok(Behaviour { entries })
    }
}

// Adds the entries of a player who plays a strategy, with the first action at each set to which it
// gives none.
fn push_player(
    entries: &mut Vec<Frac>,
    tree: &Tree,
    player: u32,
    strategy: &[u32],
) -> Result<(), Memory>
    requires { length strategy.now ≡ length (own_sets (game_of_tree tree.now) player) }
    ensures { OnOk result
        (entries.new.items ≡ entries.old.items
        ++ entries_at (game_of_tree tree.now)
        (pure (first_for_none (game_of_tree tree.now) player strategy.now))
        (own_sets (game_of_tree tree.now) player)) }
{
    let sets = tree.sets();
    let own = tree.sets_of(player);
    for place in 0..strategy.len() {
        let set = own[place] as usize;
        let chosen = (strategy[place] as usize).saturating_sub(1);
        push_sure(entries, sets[set].actions().len(), chosen)?;
    }
    Ok(())
}
