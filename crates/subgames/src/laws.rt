// The laws of cuts. The functions do nothing: their contracts are laws, so that a check proves
// them.
ghost use Rattle.subgames.specs.CutLaws.{CutEquilibriaArePerfect, CutsKeepRecall, CutsKeepValues, SetsStandInOneCut};

/// Each node of a cut has its value in the tree, where its ends are given theirs.
pub fn cuts_keep_values()
    ensures { CutsKeepValues }
{}

/// A player who recalls in a tree recalls in its cuts.
pub fn cuts_keep_recall()
    ensures { CutsKeepRecall }
{}

/// A behaviour that is an equilibrium of each cut, whose ends are worth what they are under it, is
/// an equilibrium at each node where a subgame begins.
pub fn cut_equilibria_are_perfect()
    ensures { CutEquilibriaArePerfect }
{}

/// Each set that a node has stands in the cut at some node where a subgame begins, and a player's
/// set stands in the cut at one such node only.
pub fn sets_stand_in_one_cut()
    ensures { SetsStandInOneCut }
{}
