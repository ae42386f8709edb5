//! The tool `enumpure` on trees: the pure equilibria of a tree, a line of behaviour each; and the
//! choices of one action at each player's set that are equilibria, of the players or of the agent
//! form, at the root or at each node where a subgame begins.
//!
//! Callers may rely on: `list_pure_behaviours` gives the text, refused exactly where it is too
//! long; `one_text_of_equilibria`; two profiles never have the same line. `list_passing_choices`
//! gives the text of the choices that pass, or the first reason in the order of
//! `specs::PassingStops` why there is none; `passing_texts_are_single`.
//! `passing_choices_are_equilibria` and `passing_choices_are_perfect` say which choices pass where
//! the players choose, by the definitions of `game_theory` and `subgames`.
//! Definitions: `specs::TreeEquilibria` says which lines there are and in which order, `Stops` what
//! a tree answers. `TestNodes` says at which nodes choices are tested, `PassingChoices` which
//! choices pass, `PassingText` what their lines are, `Values` which values are computed and in
//! which steps, `Choices` how choices are numbered, `PassingStops` what a tree answers then.
//! Private words: `specs::Orders`, `Ranks`, `StrategyOrders` and `Listing`, how the code sorts and
//! lists; `Games`, the games at nodes and the columns of their payoffs, `PassingNumbers`, the
//! choices that are equilibria by their numbers, and `Told`, how the reasons of other crates are
//! told.
//! Lemmas for callers: `proofs::EquilibriumLineLemmas`, that a tree has at most one list of lines;
//! `OneTextLaws` on the choices that pass.
//! A change here touches: `refusals`, `gambit_tools`, and what `enumpure` prints of a tree without
//! `-S`.
#![tactic(auto)]

ghost use Rattle.enumpure_trees.specs.Laws.{LinesDetermineProfiles, OneTextOfEquilibria, PassingAtRootIsEquilibrium, PassingInSubgamesIsPerfection};

mod choices;
mod listing;
mod orders;
mod passing;
mod passing_listing;
mod stop;
mod test_nodes;
mod values;

pub use listing::{behaviour_texts_are_answered, behaviour_texts_are_single, list_pure_behaviours};
pub use passing_listing::{
    list_passing_choices, passing_texts_are_answered, passing_texts_are_single,
};
pub use stop::ChoiceStop;

/// Two profiles never have the same line.
pub fn lines_determine_profiles()
    ensures { LinesDetermineProfiles }
{}

/// A tree has at most one text of equilibria.
pub fn one_text_of_equilibria()
    ensures { OneTextOfEquilibria }
{}

/// A choice of one action at each player's set that is tested at the root alone, and not as agents,
/// passes exactly where its behaviour is an equilibrium of the tree.
pub fn passing_choices_are_equilibria()
    ensures { PassingAtRootIsEquilibrium }
{}

/// A choice of one action at each player's set that is tested wherever a subgame begins, and not as
/// agents, passes exactly where its behaviour is subgame-perfect: where it is an equilibrium at
/// each node at which a subgame begins.
pub fn passing_choices_are_perfect()
    ensures { PassingInSubgamesIsPerfection }
{}
