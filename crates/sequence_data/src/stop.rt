// Why a game has no sequence form here.
use answers::Memory;
use frac128::Unfit;
use std::alloc::{AllocError, AllocFailed};

/// Why a game has no sequence form here.
#[derive(Clone, Copy, Debug, PartialEq, Eq)]
pub enum SeqStop {
    /// The game does not have two players.
    NotTwoPlayers {
        /// How many it has.
        count: u32,
    },
    /// A step does not fit: the first.
    Range {
        /// The node or the profile.
        place: u32,
        /// The step.
        unfit: Unfit,
    },
    /// Memory ran out.
    Memory,
}

impl From<Memory> for SeqStop {
    ghost use Rattle.std.specs.Prelude.{◌≡◌};
    ghost use Rattle.sequence_data.specs.declared.stop.SeqStop.TheVariants as stops;

    ghost from_gives = { λ _ e. e ≡ stops.Memory };

    fn from(_memory: Memory) -> SeqStop {
        SeqStop::Memory
    }
}

impl From<AllocError> for SeqStop {
    ghost use Rattle.std.specs.Prelude.{◌≡◌};
    ghost use Rattle.sequence_data.specs.declared.stop.SeqStop.TheVariants as stops;

    ghost from_gives = { λ _ e. e ≡ stops.Memory };

    fn from(_error: AllocError) -> SeqStop {
        SeqStop::Memory
    }
}

impl<T: Drop> From<AllocFailed<T>> for SeqStop {
    ghost use Rattle.std.specs.Prelude.{◌≡◌};
    ghost use Rattle.sequence_data.specs.declared.stop.SeqStop.TheVariants as stops;

    ghost from_gives = { λ _ e. e ≡ stops.Memory };

    fn from(_refused: AllocFailed<T>) -> SeqStop {
        SeqStop::Memory
    }
}
