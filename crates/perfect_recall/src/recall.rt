// What is found of perfect recall.
ghost use Rattle.std.specs.Prelude.{◌≡◌};

use answers::Memory;
use std::marker::Model;

/// A player who forgets: the first one, in the first of that player's sets in which two nodes have
/// different own histories. Players and nodes are numbered from 0.
#[derive(Clone, Copy, Debug, PartialEq, Eq)]
pub struct Forgets {
    /// The player.
    pub player: u32,
    /// The number that a file gives the set.
    pub set: u64,
    /// The first node of the set.
    pub first_node: u32,
    /// The first node of the set with another own history.
    pub second_node: u32,
}

/// Why there is no [`Recall`] of a tree.
#[derive(Clone, Copy, Debug, PartialEq, Eq)]
pub enum RecallStop {
    /// A player forgets.
    Forgets(Forgets),
    /// Memory ran out.
    Memory,
}

impl From<Memory> for RecallStop {
    ghost use Rattle.perfect_recall.specs.declared.recall.RecallStop.TheVariants as stops;

    ghost from_gives = { λ _ stop. stop ≡ stops.Memory };

    fn from(_memory: Memory) -> RecallStop {
        RecallStop::Memory
    }
}

/// The last own set and action before each information set of a tree in which each player has
/// perfect recall.
#[derive(Debug, Drop)]
pub struct Recall {
    before: Vec<Option<(u32, u32)>>,
}

impl Model for Recall {
    ghost use Rattle.std.specs.Prelude.{List, Option, ℕ};

    ghost Value = { List (Option (ℕ × ℕ)) };

    ghost view = { λ r. r.before.items };
}

impl Recall {
    // The edges before the sets in order.
    pub(crate) fn new(before: Vec<Option<(u32, u32)>>) -> Recall
        ensures { result ≡ before.items }
    {
        Recall { before }
    }

    /// For each set in order the last own set and action before it; nothing where there is none,
    /// and at a set of chance.
    pub fn before(&self) -> &[Option<(u32, u32)>]
        ensures { result.now ≡ self.now }
    {
        self.before.as_slice()
    }
}
