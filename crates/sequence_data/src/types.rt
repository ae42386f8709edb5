// The parts of a sequence form. Sequences are numbered from 0, which is the empty one. In clauses
// the first player is 0 and the second is 1.
use frac128::Frac;

/// An information set of a player.
#[derive(Clone, Copy, Debug, PartialEq, Eq)]
pub struct SetRow {
    /// The sequence before the set.
    pub before: u32,
    /// The sequence of its first action.
    pub first: u32,
    /// How many actions it has.
    pub count: u32,
}

/// A leaf of a tree, or a profile of a table.
#[derive(Clone, Copy, Debug)]
pub struct Leaf {
    /// The node, or the profile.
    pub place: u32,
    /// The last sequence of the first player.
    pub row: u32,
    /// The last sequence of the second player.
    pub column: u32,
    /// The product of the probabilities of chance on the path.
    pub chance: Frac,
    /// What the outcomes on the path pay the first player.
    pub one: Frac,
    /// What they pay the second player.
    pub two: Frac,
}

/// A cell of the form: the sums over the leaves with this row and column.
#[derive(Clone, Copy, Debug)]
pub struct Cell {
    /// The sequence of the first player.
    pub row: u32,
    /// The sequence of the second player.
    pub column: u32,
    /// The sum of the chances.
    pub weight: Frac,
    /// The sum of the chances times the payoffs of the first player.
    pub one: Frac,
    /// The sum of the chances times the payoffs of the second player.
    pub two: Frac,
}
