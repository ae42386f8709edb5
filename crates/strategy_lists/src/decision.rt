// Decisions of a player.

/// A node at which a player chooses, seen from this player alone. A player's decisions are numbered
/// from 0, each after those on its path.
#[derive(Clone, Copy, Debug, PartialEq, Eq)]
pub struct Decision {
    /// The place of its information set among the player's own sets, from 0.
    pub place: u32,
    /// The player's decision just before it on its path and the action that leads here, where there
    /// is one.
    pub before: Option<Edge>,
}

/// An action at a decision.
#[derive(Clone, Copy, Debug, PartialEq, Eq)]
pub struct Edge {
    /// The decision.
    pub decision: u32,
    /// The place of the decision's set.
    pub place: u32,
    /// The action, from 0.
    pub action: u32,
}
