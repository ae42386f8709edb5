//! Extreme equilibria of games of two players, and what is kept of a game where strictly dominated
//! strategies are removed round by round: definitions and laws.
//!
//! Callers may rely on: `pair_lines_are_extreme_equilibria`, from pairs of listed vertices to
//! lines; `shifts_keep_equilibria`; `one_list_of_extreme_equilibria`; and that elimination loses
//! no equilibrium: `equilibria_of_the_kept_table`, `extreme_equilibria_of_the_kept_table`.
//! Definitions: `specs::ExtremeEquilibria` says what they are, `Bimatrix` has the two tables,
//! `Polytopes` best replies and labels, `Systems` the two systems, `PairLines` the lines;
//! `Elimination` says which strategies are kept, `KeptTable` has the game over them.
//! Lemmas for callers: `proofs::SystemLemmas` on the points of the systems, `ExtremeListLemmas` and
//! `PairLineLemmas` on lists of lines, `KeptListLemmas` and `RoundLemmas` on what is kept.
//! A change here touches: `kept_strategies`, `reply_polytope`, `label_pairing`, `enummixed`.
#![tactic(auto)]

ghost use Rattle.extreme_equilibria.specs.Examples.{
  IndifferenceHasExtremeEquilibria,
  OneProfileIsExtreme,
};
ghost use Rattle.extreme_equilibria.specs.Laws.{
  EquilibriaAreLabelledPairs,
  EquilibriaByTables,
  ExtremeEquilibriaAreScaledPairs,
  ExtremeEquilibriaByTables,
  ExtremeWhereVertices,
  LabelledPairsAreEquilibria,
  ListedVerticesScaleDifferently,
  MasksDetermineLabels,
  OneListOfExtremeEquilibria,
  PairLinesAreExtremeEquilibria,
  PairsScaleDifferently,
  PureEquilibriaAreExtreme,
  ShiftedPayoffsArePositive,
  ShiftsKeepEquilibria,
  SolutionsAreThePolytopes,
  VerticesScaleDifferently,
  ZeroPairsWithZero,
  ZerosAreLabelled,
};
ghost use Rattle.extreme_equilibria.specs.KeptExamples.{EliminationInTwoGames};
ghost use Rattle.extreme_equilibria.specs.KeptLaws.{
  EquilibriaAreZeroAtRemoved,
  EquilibriaOfTheKeptTable,
  ExtremeEquilibriaOfTheKeptTable,
  KeptStrategiesExist,
  LastListsAreKept,
  OneListOfKeptStrategies,
  ProfilesAreSpread,
  RoundThatRemovesNoneIsLast,
  RoundsByLists,
  RoundsEnd,
  SameCellsHaveSameEquilibria,
};

/// A game has only one list of its extreme equilibria.
pub fn one_list_of_extreme_equilibria()
    ensures { OneListOfExtremeEquilibria }
{}

/// A pure equilibrium is extreme.
pub fn pure_equilibria_are_extreme()
    ensures { PureEquilibriaAreExtreme }
{}

/// The equilibria of a game of two players, extreme ones too, are those of its two tables.
pub fn equilibria_by_tables()
    ensures equilibria { EquilibriaByTables }
    ensures extreme { ExtremeEquilibriaByTables }
{}

/// A number added to a player's payoffs changes no equilibrium, and 1 less the least payoff makes
/// all positive.
pub fn shifts_keep_equilibria()
    ensures kept { ShiftsKeepEquilibria }
    ensures positive { ShiftedPayoffsArePositive }
{}

/// The completely labelled pairs of nonzero points are the equilibria, divided by the payoffs.
pub fn labelled_pairs_are_equilibria()
    ensures sound { LabelledPairsAreEquilibria }
    ensures complete { EquilibriaAreLabelledPairs }
{}

/// Extreme equilibria are the scalings of the completely labelled pairs of nonzero vertices.
pub fn extreme_equilibria_are_scaled_pairs()
    ensures together { ExtremeWhereVertices }
    ensures all { ExtremeEquilibriaAreScaledPairs }
{}

/// Different pairs have different scalings, and different vertices of one polytope too.
pub fn different_points_scale_differently()
    ensures pairs { PairsScaleDifferently }
    ensures vertices { VerticesScaleDifferently }
    ensures listed { ListedVerticesScaleDifferently }
{}

/// Of all completely labelled pairs of vertices only that of the two zero points is no equilibrium.
pub fn zero_pairs_with_zero()
    ensures together { ZeroPairsWithZero }
    ensures zeros { ZerosAreLabelled }
{}

/// The points of the two systems are the points of the two polytopes.
pub fn solutions_are_the_polytopes()
    ensures { SolutionsAreThePolytopes }
{}

/// Two masks together have all bits exactly where the two points together have all labels.
pub fn masks_determine_labels()
    ensures { MasksDetermineLabels }
{}

/// The lines of the pairs of vertices that together have all labels are those of the extreme
/// equilibria.
pub fn pair_lines_are_extreme_equilibria()
    ensures { PairLinesAreExtremeEquilibria }
{}

/// Where a player gets the same for two strategies, even chances are an equilibrium that is not
/// extreme.
pub fn indifference()
    ensures { IndifferenceHasExtremeEquilibria }
{}

/// The one profile of the smallest game is its one extreme equilibrium.
pub fn one_profile()
    ensures { OneProfileIsExtreme }
{}

/// What is kept after a round that removes none is kept for good.
pub fn round_that_removes_none_is_last()
    ensures { RoundThatRemovesNoneIsLast }
{}

/// Some round removes none.
pub fn rounds_end()
    ensures { RoundsEnd }
{}

/// A round keeps of the lists what is not strictly dominated among them.
pub fn rounds_by_lists()
    ensures { RoundsByLists }
{}

/// Lists from which a round removes nothing are those of the kept strategies.
pub fn last_lists_are_kept()
    ensures { LastListsAreKept }
{}

/// A player has a list of kept strategies.
pub fn kept_strategies_exist()
    ensures { KeptStrategiesExist }
{}

/// A player has only one list of kept strategies.
pub fn one_list_of_kept_strategies()
    ensures { OneListOfKeptStrategies }
{}

/// Every equilibrium gives each removed strategy the probability 0.
pub fn equilibria_are_zero_at_removed()
    ensures { EquilibriaAreZeroAtRemoved }
{}

/// The equilibria are those of the kept table, with 0 at removed strategies.
pub fn equilibria_of_the_kept_table()
    ensures { EquilibriaOfTheKeptTable }
{}

/// The extreme equilibria are those of the kept table, with 0 at removed strategies.
pub fn extreme_equilibria_of_the_kept_table()
    ensures { ExtremeEquilibriaOfTheKeptTable }
{}

/// Games with the same payoffs at each profile have the same equilibria.
pub fn same_cells_have_same_equilibria()
    ensures { SameCellsHaveSameEquilibria }
{}

/// Each profile of the kept table is one of the game, with 0 at removed strategies.
pub fn profiles_are_spread()
    ensures { ProfilesAreSpread }
{}

/// In the prisoners' dilemma to confess is all that is kept, and what is dominated, but not
/// strictly, is kept.
pub fn elimination_in_two_games()
    ensures { EliminationInTwoGames }
{}
