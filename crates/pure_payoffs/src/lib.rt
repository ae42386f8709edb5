//! What one action at each player's set pays on a tree, at the root and at any node, computed step
//! by step in fractions of 128 bits.
//!
//! Callers may rely on: `Play::push_payoffs` gives what the choices pay each player, and
//! `Play::push_all_values` what nodes are worth to each, or the first step in the order of
//! `specs::Steps` that does not fit; `children_of_all`, the children of each node and no more;
//! `values_are_single`. `Shortcuts` are a tree's, and nothing else is known of them.
//! Definitions: `specs::Steps` has the steps of a payoff in order, `Stops` what choices answer,
//! `Choices` which actions are chosen, `Plays` the game and the choices of a play, `ChildLists` how
//! long a node's list of children is.
//! Private words: `specs::Shortcuts` and `Settled`, what is kept from choices to choices.
//! Lemmas for callers: `proofs::NodeStepLemmas` on the steps of a node, `BranchStepLemmas` on those
//! of a branch of chance, `ChoiceLemmas` on choices, `PlaceLemmas` on children and strategies.
//! A change here touches: `reduced_form`, `behaviour_profile`, `enumpure_trees`, `verdicts`,
//! `two_player_tools` and `gambit_tools`.
#![tactic(auto)]

mod children;
mod choices;
mod laws;
mod payoff;
mod settled;
mod shortcuts;
mod stop;

pub use children::children_of_all;
pub use choices::Choices;
pub use laws::values_are_single;
pub use payoff::Play;
pub use shortcuts::Shortcuts;
pub use stop::{PayoffStop, ValueStop};
