// Why there is no problem.
use answers::Memory;
use frac128::Unfit;
use game_core::TooLarge;
use lex_tableau::StartStop;
use std::alloc::{AllocError, AllocFailed};

/// Why a sequence form has no problem here.
#[derive(Clone, Copy, Debug, PartialEq, Eq)]
pub enum LcpStop {
    /// There are too many rows.
    TooLarge(TooLarge),
    /// A step of the costs does not fit: the first.
    Range {
        /// The player, 0 or 1, whose cost it is.
        player: u32,
        /// The sequence of the first player; 0 is the empty one.
        row: u32,
        /// The sequence of the second player; 0 is the empty one.
        column: u32,
        /// The step.
        unfit: Unfit,
    },
    /// A step of the start does not fit: the first.
    Start {
        /// The row, counted from 0.
        row: u32,
        /// The step.
        unfit: Unfit,
    },
    /// Memory ran out.
    Memory,
}

impl From<TooLarge> for LcpStop {
    ghost use Rattle.std.specs.Prelude.{◌≡◌};
    ghost use Rattle.lemke_pivot.specs.declared.stop.LcpStop.TheVariants as stops;

    ghost from_gives = { λ limit e. e ≡ stops.TooLarge limit };

    fn from(limit: TooLarge) -> LcpStop {
        LcpStop::TooLarge(limit)
    }
}

impl From<StartStop> for LcpStop {
    ghost use Rattle.std.specs.Prelude.{◌≡◌};
    ghost use Rattle.lemke_pivot.specs.FormProblems.{told_start};

    ghost from_gives = { λ stop e. e ≡ told_start stop };

    fn from(stop: StartStop) -> LcpStop {
        match stop {
            StartStop::Unfit { row, unfit } => LcpStop::Start { row, unfit },
            StartStop::Memory => LcpStop::Memory,
        }
    }
}

impl From<Memory> for LcpStop {
    ghost use Rattle.std.specs.Prelude.{◌≡◌};
    ghost use Rattle.lemke_pivot.specs.declared.stop.LcpStop.TheVariants as stops;

    ghost from_gives = { λ _ e. e ≡ stops.Memory };

    fn from(_memory: Memory) -> LcpStop {
        LcpStop::Memory
    }
}

impl From<AllocError> for LcpStop {
    ghost use Rattle.std.specs.Prelude.{◌≡◌};
    ghost use Rattle.lemke_pivot.specs.declared.stop.LcpStop.TheVariants as stops;

    ghost from_gives = { λ _ e. e ≡ stops.Memory };

    fn from(_error: AllocError) -> LcpStop {
        LcpStop::Memory
    }
}

impl<T: Drop> From<AllocFailed<T>> for LcpStop {
    ghost use Rattle.std.specs.Prelude.{◌≡◌};
    ghost use Rattle.lemke_pivot.specs.declared.stop.LcpStop.TheVariants as stops;

    ghost from_gives = { λ _ e. e ≡ stops.Memory };

    fn from(_refused: AllocFailed<T>) -> LcpStop {
        LcpStop::Memory
    }
}
