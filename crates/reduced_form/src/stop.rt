// Why a tree was not reduced.
use answers::Memory;
use frac128::Unfit;
use game_core::TooLarge;
use std::alloc::{AllocError, AllocFailed};

/// Why a tree was not reduced.
#[derive(Clone, Copy, Debug, PartialEq, Eq)]
pub enum ReduceStop {
    /// The form would have more than 1,048,576 payoffs or, where it has not, more than 67,108,864
    /// choices.
    TooLarge(TooLarge),
    /// A step of a player's payoff at a profile does not fit: the first, profiles in order and in
    /// each the players. Both are numbered from 0.
    Range {
        /// The profile.
        profile: u32,
        /// The player.
        player: u32,
        /// The step.
        unfit: Unfit,
    },
    /// Memory ran out.
    Memory,
}

impl From<Memory> for ReduceStop {
    ghost use Rattle.std.specs.Prelude.{◌≡◌};
    ghost use Rattle.reduced_form.specs.declared.stop.ReduceStop.TheVariants as stops;

    ghost from_gives = { λ _ e. e ≡ stops.Memory };

    fn from(_memory: Memory) -> ReduceStop {
        ReduceStop::Memory
    }
}

impl From<AllocError> for ReduceStop {
    ghost use Rattle.std.specs.Prelude.{◌≡◌};
    ghost use Rattle.reduced_form.specs.declared.stop.ReduceStop.TheVariants as stops;

    ghost from_gives = { λ _ e. e ≡ stops.Memory };

    fn from(_error: AllocError) -> ReduceStop {
        ReduceStop::Memory
    }
}

impl<T: Drop> From<AllocFailed<T>> for ReduceStop {
    ghost use Rattle.std.specs.Prelude.{◌≡◌};
    ghost use Rattle.reduced_form.specs.declared.stop.ReduceStop.TheVariants as stops;

    ghost from_gives = { λ _ e. e ≡ stops.Memory };

    fn from(_refused: AllocFailed<T>) -> ReduceStop {
        ReduceStop::Memory
    }
}
