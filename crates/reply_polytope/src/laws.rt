// The laws of the answers and of the systems. The functions do nothing: their contracts are laws,
// so that a check proves them.
ghost use Rattle.reply_polytope.specs.AnsweredLaws.{PolytopesAreAnswered};
ghost use Rattle.reply_polytope.specs.Laws.{SystemsAreThePolytopes};
ghost use Rattle.reply_polytope.specs.Stops.{PolytopesAreSingle};

use extreme_equilibria::solutions_are_the_polytopes;

/// A game has one answer at most: a pair of systems, or why it has none.
pub fn polytopes_are_single()
    ensures { PolytopesAreSingle }
{}

/// A game, each of whose players has a strategy, has an answer: a pair of systems, or why it has
/// none.
pub fn polytopes_are_answered()
    ensures { PolytopesAreAnswered }
{}

/// The solutions without negative entries of a game's two systems are the points of the
/// best-response polytopes of its shifted payoffs.
pub fn systems_are_the_polytopes()
    ensures { SystemsAreThePolytopes }
{
    solutions_are_the_polytopes();
}
