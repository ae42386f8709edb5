// Why a game has no two systems.
use answers::Memory;
use frac128::Unfit;
use game_core::TooLarge;
use std::alloc::{AllocError, AllocFailed};

/// Why a game has no two systems.
#[derive(Clone, Copy, Debug, PartialEq, Eq)]
pub enum PolyStop {
    /// The game has another number of players.
    NotTwoPlayers {
        /// How many players there are.
        count: u32,
    },
    /// Both players together have more than 128 strategies.
    TooLarge(TooLarge),
    /// A step of the shift of a player's payoffs does not fit: the first, the first player's before
    /// the second's.
    Range {
        /// The player, counted from 0.
        player: u32,
        /// The profile, counted from 0.
        profile: u32,
        /// The step.
        unfit: Unfit,
    },
    /// Memory ran out.
    Memory,
}

impl From<TooLarge> for PolyStop {
    ghost use Rattle.std.specs.Prelude.{◌≡◌};
    ghost use Rattle.reply_polytope.specs.declared.stop.PolyStop.TheVariants as stops;

    ghost from_gives = { λ limit e. e ≡ stops.TooLarge limit };

    fn from(limit: TooLarge) -> PolyStop {
        PolyStop::TooLarge(limit)
    }
}

impl From<Memory> for PolyStop {
    ghost use Rattle.std.specs.Prelude.{◌≡◌};
    ghost use Rattle.reply_polytope.specs.declared.stop.PolyStop.TheVariants as stops;

    ghost from_gives = { λ _ e. e ≡ stops.Memory };

    fn from(_memory: Memory) -> PolyStop {
        PolyStop::Memory
    }
}

impl From<AllocError> for PolyStop {
    ghost use Rattle.std.specs.Prelude.{◌≡◌};
    ghost use Rattle.reply_polytope.specs.declared.stop.PolyStop.TheVariants as stops;

    ghost from_gives = { λ _ e. e ≡ stops.Memory };

    fn from(_error: AllocError) -> PolyStop {
        PolyStop::Memory
    }
}

impl<T: Drop> From<AllocFailed<T>> for PolyStop {
    ghost use Rattle.std.specs.Prelude.{◌≡◌};
    ghost use Rattle.reply_polytope.specs.declared.stop.PolyStop.TheVariants as stops;

    ghost from_gives = { λ _ e. e ≡ stops.Memory };

    fn from(_refused: AllocFailed<T>) -> PolyStop {
        PolyStop::Memory
    }
}
