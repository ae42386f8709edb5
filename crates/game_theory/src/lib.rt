//! Games in strategic and in extensive form and their equilibria, for contracts and proofs.
//!
//! Callers may rely on: the functions without a body, each a law: on profiles and their cells,
//! payoffs as means, lists and lines of equilibria, values of nodes, and worked examples.
//! Definitions: strategic form: `specs::Profiles`, then `Mixed`, `Equilibrium`, `Lines`. Extensive
//! form: `Trees`, then `Behaviour`, `TreeEquilibrium`, `Recall`, `OwnSets`.
//! Lemmas for callers: `proofs::ProfileNumberLemmas`, `SureStrategyLemmas`, `ReplyLemmas`,
//! `PureProfileLemmas`, `LineOrderLemmas` and `ProfileLineLemmas`; of trees `ChildLemmas`,
//! `PathLemmas`, `SubtreeOrderLemmas`, `SubtreeLemmas`, `ValueLemmas` and `OwnSetLemmas`.
//! A change here touches: what an equilibrium is and how its line is written, and so the contract
//! of `run`, what each text of a tool is, and the proofs of all crates that name games.
#![tactic(auto)]

ghost use Rattle.game_theory.specs.Examples.{
  BattleOfTheSexesHasTwoPureEquilibria,
  MatchingPenniesHasNoPureEquilibrium,
  PrisonersDilemmaHasOnePureEquilibrium,
};
ghost use Rattle.game_theory.specs.Laws.{
  LinesDetermineProfiles,
  OneListOfPureEquilibria,
  PayoffIsMeanOfReplies,
  ProfilesAreNumbered,
  PureEquilibriaByCells,
  PurePaysItsCell,
  PureReplyPaysItsCell,
};
ghost use Rattle.game_theory.specs.TreeExamples.{EntryHasTwoPureEquilibria, PokerIsWorthAThird, RecallInTwoGames};
ghost use Rattle.game_theory.specs.TreeLaws.{
  EndsPayTheirOutcome,
  ValuesAreUnique,
  ValuesByActions,
  ValuesDependOnSubtrees,
  ValuesRecur,
};
ghost use Rattle.std.specs.Prelude.{ℕ, List};

/// The pure profiles of a game belong to the numbers below their count, one to one.
pub fn profiles_are_numbered()
    ensures { (ns : List ℕ) → ProfilesAreNumbered ns }
{}

/// A pure profile pays each player what its cell says.
pub fn pure_profiles_pay_their_cell()
    ensures { PurePaysItsCell }
{}

/// A pure reply to a pure profile pays what the cell of the profile with that strategy says.
pub fn pure_replies_pay_their_cell()
    ensures { PureReplyPaysItsCell }
{}

/// A pure profile is an equilibrium exactly where no player has a cell with a greater payoff.
pub fn pure_equilibria_by_cells()
    ensures { PureEquilibriaByCells }
{}

/// A player's payoff is the mean of the payoffs of their pure replies.
pub fn payoff_is_the_mean_of_replies()
    ensures { PayoffIsMeanOfReplies }
{}

/// A game has only one list of its pure equilibria.
pub fn one_list_of_pure_equilibria()
    ensures { OneListOfPureEquilibria }
{}

/// Two pure profiles never have the same line.
pub fn lines_determine_profiles()
    ensures { LinesDetermineProfiles }
{}

/// In the prisoners' dilemma both confess: that is its only pure equilibrium.
pub fn prisoners_dilemma()
    ensures { PrisonersDilemmaHasOnePureEquilibrium }
{}

/// In the battle of the sexes the players meet at either place: those are its only pure equilibria,
/// in this order.
pub fn battle_of_the_sexes()
    ensures { BattleOfTheSexesHasTwoPureEquilibria }
{}

/// Even chances are an equilibrium of matching pennies, and no pure profile is one.
pub fn matching_pennies()
    ensures { MatchingPenniesHasNoPureEquilibrium }
{}

/// The value of a node is what its outcome pays and its children's weighted values.
pub fn values_recur()
    ensures { ValuesRecur }
{}

/// Whatever obeys the recursion of the values is the values.
pub fn values_are_unique()
    ensures { ValuesAreUnique }
{}

/// An end has the value that its outcome pays.
pub fn ends_pay_their_outcome()
    ensures { EndsPayTheirOutcome }
{}

/// The value of any other node is what its outcome pays and the weighted values after its actions.
pub fn values_by_actions()
    ensures { ValuesByActions }
{}

/// The value of a node depends only on the behaviour at the sets of its subtree.
pub fn values_depend_on_subtrees()
    ensures { ValuesDependOnSubtrees }
{}

/// One-card poker is worth 1/3 to the player who draws the card.
pub fn poker_is_worth_a_third()
    ensures { PokerIsWorthAThird }
{}

/// The entry game has two equilibria without random choices.
pub fn entry_has_two_pure_equilibria()
    ensures { EntryHasTwoPureEquilibria }
{}

/// The players of one-card poker recall their choices, and a player who forgets does not.
pub fn recall_in_two_games()
    ensures { RecallInTwoGames }
{}
