// One action at each player's set.

/// One action at each player's set. Players, sets, strategies and actions are numbered from 0.
#[derive(Clone, Copy, Debug)]
pub enum Choices<'a> {
    /// Those of a profile of reduced strategies, and the first action at each set to which its
    /// owner's strategy gives none.
    Reduced {
        /// For each set its place among its owner's own sets.
        places: &'a [u32],
        /// For each player the reduced strategies, and in each for each own set its action, counted
        /// from 1, or 0.
        strategies: &'a [Vec<Vec<u32>>],
        /// For each player the number of the strategy.
        profile: &'a [u32],
    },
    /// For each set its action. What stands at a set of chance counts for nothing.
    Actions(&'a [u32]),
}
