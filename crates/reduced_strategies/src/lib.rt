//! Reduced strategies of game trees, and the strategic form over them, for contracts and proofs.
//!
//! Callers may rely on: `completions_pay_the_cell`, `pure_equilibria_are_those_of_the_tree`,
//! `choices_have_reduced` and `one_list_of_strategies`; none of these laws asks for perfect recall.
//! Definitions: `specs::Choices` says what a reduced strategy is and in which order they stand,
//! `StrategicForm` what their profiles pay.
//! Lemmas for callers: `proofs::AgreementLemmas` on own histories, `SetLemmas` and
//! `StrategyProfileLemmas` on what choice lists give the sets, `ReducedStrategyLemmas` and
//! `TreeEquilibriaLemmas` on completions.
//! A change here touches: `strategy_lists`, `pure_payoffs`, `reduced_form`, `behaviour_profile`,
//! `enumpure_trees` and what the tools print of trees.
#![tactic(auto)]

ghost use Rattle.reduced_strategies.specs.Examples.{ReducedStrategiesOfOnePlayer};
ghost use Rattle.reduced_strategies.specs.Laws.{
  ChoicesHaveReduced,
  CompletedChoicesDetermineStrategies,
  CompletionsPayTheCell,
  FirstActionsComplete,
  NodesDetermineStrategies,
  OneListOfStrategies,
  PureEquilibriaAreThoseOfTheTree,
  StrategiesExist,
};

/// Every completion of a profile pays its cell.
pub fn completions_pay_the_cell()
    ensures { CompletionsPayTheCell }
{}

/// The profile with first actions is a completion.
pub fn first_actions_complete()
    ensures { FirstActionsComplete }
{}

/// Every choice of actions completes exactly one reduced strategy.
pub fn choices_have_reduced()
    ensures { ChoicesHaveReduced }
{}

/// A pure profile is an equilibrium of the strategic form exactly where, completed, it is an
/// equilibrium of the tree.
pub fn pure_equilibria_are_those_of_the_tree()
    ensures { PureEquilibriaAreThoseOfTheTree }
{}

/// Two profiles with the same completed choices are one.
pub fn completed_choices_determine_strategies()
    ensures { CompletedChoicesDetermineStrategies }
{}

/// A player has a list of reduced strategies.
pub fn strategies_exist()
    ensures { StrategiesExist }
{}

/// A player has only one list of reduced strategies.
pub fn one_list_of_strategies()
    ensures { OneListOfStrategies }
{}

/// Two reduced strategies under which the same nodes can be reached are one.
pub fn nodes_determine_strategies()
    ensures { NodesDetermineStrategies }
{}

/// A player who ends the game or chooses once more has three reduced strategies.
pub fn reduced_strategies_of_one_player()
    ensures { ReducedStrategiesOfOnePlayer }
{}
