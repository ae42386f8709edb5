//! Best replies in game trees and in games in strategic form, for contracts and proofs.
//!
//! Callers may rely on: `equilibria_by_best_choices` and `equilibria_by_best_strategies`;
//! `best_choices_show_better_replies`; `best_choices_exist`, and one list of them.
//! Definitions: `specs::Reaching` has the weights of nodes, `Replies` reply values and best
//! choices, `Order` the order of sets, `Strategies` best strategies of a table.
//! Lemmas for callers: `proofs::WeightLemmas`, `ReplyValueLemmas`, `DecisionOrderLemmas`,
//! `BestChoiceLemmas`, `SetOrderLemmas`, `VerdictLemmas`, `FirstGreatestLemmas` and
//! `StrategyLemmas`, all for `verdicts`.
//! A change here touches: `verdicts` alone, and through it what `check` prints.
#![tactic(auto)]

ghost use Rattle.best_replies.specs.Examples.{BestRepliesInTheEntryGame};
ghost use Rattle.best_replies.specs.Laws.{
  ActionValuesByMembers,
  ActionValuesDependOnLaterSets,
  BestChoicesExist,
  BestChoicesPayMost,
  BestChoicesShowBetterReplies,
  BestStrategiesShowBetterReplies,
  EquilibriaByBestChoices,
  EquilibriaByBestStrategies,
  FirstGreatestExists,
  NoBehaviourPaysMore,
  OneListOfBestChoices,
  PayoffIsMeanOfStrategies,
  PayoffsOverNodes,
  ReachesAlongPaths,
  ReplyValuesDependOnLaterSets,
  ReplyValuesDependOnSubtrees,
  ReplyValuesRecur,
  RootReplyValueIsPayoff,
  SetsAscendOnPaths,
  StrategyValuesArePayoffs,
  WeightsAlongPaths,
};

/// A node is reached with the probability of its parent times that of the action that leads to it.
pub fn reaches_along_paths()
    ensures { ReachesAlongPaths }
{}

/// A payoff is the sum of what the outcomes pay, each with the probability of its node.
pub fn payoffs_over_nodes()
    ensures { PayoffsOverNodes }
{}

/// Weights are computed from the root on: own actions change none.
pub fn weights_along_paths()
    ensures { WeightsAlongPaths }
{}

/// The reply value of a node comes from those of its children, of which at an own node the chosen
/// one counts.
pub fn reply_values_recur()
    ensures { ReplyValuesRecur }
{}

/// What a reply pays is the root's reply value.
pub fn root_reply_value_is_payoff()
    ensures { RootReplyValueIsPayoff }
{}

/// What an action is worth is the sum of the reply values of the children of its set's nodes.
pub fn action_values_by_members()
    ensures { ActionValuesByMembers }
{}

/// Under perfect recall no pure reply pays more than the best choices.
pub fn best_choices_pay_most()
    ensures { BestChoicesPayMost }
{}

/// Nor does any other behaviour of the player.
pub fn no_behaviour_pays_more()
    ensures { NoBehaviourPaysMore }
{}

/// A better pure reply exists exactly where the best choices pay more.
pub fn best_choices_show_better_replies()
    ensures { BestChoicesShowBetterReplies }
{}

/// A valid behaviour is an equilibrium exactly where no player's best choices pay more.
pub fn equilibria_by_best_choices()
    ensures { EquilibriaByBestChoices }
{}

/// Under perfect recall sets that are numbered by their first nodes ascend on each path.
pub fn sets_ascend_on_paths()
    ensures { SetsAscendOnPaths }
{}

/// The reply value of a node depends only on the choices in its subtree.
pub fn reply_values_depend_on_subtrees()
    ensures { ReplyValuesDependOnSubtrees }
{}

/// After an own set it depends only on the choices at later sets.
pub fn reply_values_depend_on_later_sets()
    ensures { ReplyValuesDependOnLaterSets }
{}

/// So does what an action is worth: the sets can be decided from the last to the first.
pub fn action_values_depend_on_later_sets()
    ensures { ActionValuesDependOnLaterSets }
{}

/// Best choices exist.
pub fn best_choices_exist()
    ensures { BestChoicesExist }
{}

/// A player has only one list of best choices.
pub fn one_list_of_best_choices()
    ensures { OneListOfBestChoices }
{}

/// Of some numbers one is the first of the greatest.
pub fn first_greatest_exists()
    ensures { FirstGreatestExists }
{}

/// What a strategy is worth is what the reply with it pays.
pub fn strategy_values_are_payoffs()
    ensures { StrategyValuesArePayoffs }
{}

/// A payoff is the mean of what the player's strategies are worth.
pub fn payoff_is_the_mean_of_strategies()
    ensures { PayoffIsMeanOfStrategies }
{}

/// On a table a better pure reply exists exactly where the best strategy is worth more.
pub fn best_strategies_show_better_replies()
    ensures { BestStrategiesShowBetterReplies }
{}

/// A valid profile is an equilibrium exactly where no player's best strategy is worth more.
pub fn equilibria_by_best_strategies()
    ensures { EquilibriaByBestStrategies }
{}

/// Best replies of both firms in the entry game.
pub fn best_replies_in_the_entry_game()
    ensures { BestRepliesInTheEntryGame }
{}
