// Why what choices or behaviour pay was not computed.
use answers::Memory;
use frac128::Unfit;
use std::alloc::AllocFailed;

/// Why what choices or behaviour pay each player was not computed.
#[derive(Clone, Copy, Debug, PartialEq, Eq)]
pub enum PayoffStop {
    /// A step of a player's payoff does not fit: the first, players in order.
    Range {
        /// The player, from 0.
        player: u32,
        /// The step.
        unfit: Unfit,
    },
    /// Memory ran out.
    Memory,
}

/// Why what nodes are worth was not computed.
#[derive(Clone, Copy, Debug, PartialEq, Eq)]
pub enum ValueStop {
    /// A step of a value does not fit: the first, nodes in order, and in each players in order.
    Range {
        /// The node, from 0.
        node: u32,
        /// The player, from 0.
        player: u32,
        /// The step.
        unfit: Unfit,
    },
    /// Memory ran out.
    Memory,
}

impl From<Memory> for PayoffStop {
    ghost use Rattle.std.specs.Prelude.{◌≡◌};
    ghost use Rattle.pure_payoffs.specs.declared.stop.PayoffStop.TheVariants as stops;

    ghost from_gives = { λ _ e. e ≡ stops.Memory };

    fn from(_memory: Memory) -> PayoffStop {
        PayoffStop::Memory
    }
}

impl<T: Drop> From<AllocFailed<T>> for PayoffStop {
    ghost use Rattle.std.specs.Prelude.{◌≡◌};
    ghost use Rattle.pure_payoffs.specs.declared.stop.PayoffStop.TheVariants as stops;

    ghost from_gives = { λ _ e. e ≡ stops.Memory };

    fn from(_refused: AllocFailed<T>) -> PayoffStop {
        PayoffStop::Memory
    }
}
