// The extreme payoffs of leaves.
ghost use Rattle.std.specs.Prelude.{◌<◌, length, map};
ghost use Rattle.rational.specs.Extremes.{IsGreatest, IsLeast};

use crate::types::Leaf;
use frac128::Frac;

/// The greatest payoffs of both players, and the least of the first player.
#[derive(Clone, Copy, Debug)]
pub(crate) struct Extremes {
    /// The greatest of the first player.
    pub greatest_one: Frac,
    /// The greatest of the second player.
    pub greatest_two: Frac,
    /// The least of the first player.
    pub least_one: Frac,
}

/// The extreme payoffs of these leaves, also of those of chance 0. Takes no memory.
pub(crate) fn extreme_payoffs(leaves: &[Leaf]) -> Extremes
    requires { 0 < length leaves.now }
    ensures greatest_one { IsGreatest (map (λ l. l.one) leaves.now) result.greatest_one }
    ensures greatest_two { IsGreatest (map (λ l. l.two) leaves.now) result.greatest_two }
    ensures least_one { IsLeast (map (λ l. l.one) leaves.now) result.least_one }
{
    let first = leaves[0];
    let mut greatest_one = first.one;
    let mut greatest_two = first.two;
    let mut least_one = first.one;
    for leaf in leaves {
        greatest_one = greatest_one.max(leaf.one);
        greatest_two = greatest_two.max(leaf.two);
        least_one = least_one.min(leaf.one);
    }
    Extremes {
        greatest_one,
        greatest_two,
        least_one,
    }
}
