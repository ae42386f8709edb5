// Why there is no program, and why there are no plans.
use answers::Memory;
use frac128::{Frac, Unfit};
use game_core::TooLarge;
use lex_tableau::StartStop;
use std::alloc::{AllocError, AllocFailed};

/// Two leaves whose payoffs do not sum to the same number: the first leaf, and the first of the
/// others that differs.
#[derive(Clone, Copy, Debug, PartialEq, Eq)]
pub struct NotConstant {
    /// The node of the first leaf, or the first profile, counted from 0.
    pub first: u32,
    /// That of the other, counted from 0.
    pub second: u32,
    /// The sum of the payoffs of both players there.
    pub first_sum: Frac,
    /// The sum at the other.
    pub second_sum: Frac,
}

/// Why a sequence form has no program here.
#[derive(Clone, Copy, Debug, PartialEq, Eq)]
pub enum LpStop {
    /// There are too many rows and columns together.
    TooLarge(TooLarge),
    /// The sum of the payoffs at a leaf does not fit: the first such leaf.
    SumRange {
        /// The node, or the profile, counted from 0.
        place: u32,
        /// The step.
        unfit: Unfit,
    },
    /// The payoffs do not sum to the same number at all leaves.
    NotConstant(NotConstant),
    /// A step of the gains does not fit: the first.
    GainRange {
        /// The sequence of the first player; 0 is the empty one.
        row: u32,
        /// The sequence of the second player; 0 is the empty one.
        column: u32,
        /// The step.
        unfit: Unfit,
    },
    /// A step of the start does not fit: the first.
    Start {
        /// The row, counted from 0.
        row: u32,
        /// The step.
        unfit: Unfit,
    },
    /// Memory ran out.
    Memory,
}

impl From<TooLarge> for LpStop {
    ghost use Rattle.std.specs.Prelude.{◌≡◌};
    ghost use Rattle.zero_sum_lp.specs.declared.stop.LpStop.TheVariants as stops;

    ghost from_gives = { λ limit e. e ≡ stops.TooLarge limit };

    fn from(limit: TooLarge) -> LpStop {
        LpStop::TooLarge(limit)
    }
}

impl From<NotConstant> for LpStop {
    ghost use Rattle.std.specs.Prelude.{◌≡◌};
    ghost use Rattle.zero_sum_lp.specs.declared.stop.LpStop.TheVariants as stops;

    ghost from_gives = { λ stop e. e ≡ stops.NotConstant stop };

    fn from(stop: NotConstant) -> LpStop {
        LpStop::NotConstant(stop)
    }
}

impl From<StartStop> for LpStop {
    ghost use Rattle.std.specs.Prelude.{◌≡◌};
    ghost use Rattle.zero_sum_lp.specs.FormPrograms.{told_start};

    ghost from_gives = { λ stop e. e ≡ told_start stop };

    fn from(stop: StartStop) -> LpStop {
        match stop {
            StartStop::Unfit { row, unfit } => LpStop::Start { row, unfit },
            StartStop::Memory => LpStop::Memory,
        }
    }
}

impl From<Memory> for LpStop {
    ghost use Rattle.std.specs.Prelude.{◌≡◌};
    ghost use Rattle.zero_sum_lp.specs.declared.stop.LpStop.TheVariants as stops;

    ghost from_gives = { λ _ e. e ≡ stops.Memory };

    fn from(_memory: Memory) -> LpStop {
        LpStop::Memory
    }
}

impl From<AllocError> for LpStop {
    ghost use Rattle.std.specs.Prelude.{◌≡◌};
    ghost use Rattle.zero_sum_lp.specs.declared.stop.LpStop.TheVariants as stops;

    ghost from_gives = { λ _ e. e ≡ stops.Memory };

    fn from(_error: AllocError) -> LpStop {
        LpStop::Memory
    }
}

impl<T: Drop> From<AllocFailed<T>> for LpStop {
    ghost use Rattle.std.specs.Prelude.{◌≡◌};
    ghost use Rattle.zero_sum_lp.specs.declared.stop.LpStop.TheVariants as stops;

    ghost from_gives = { λ _ e. e ≡ stops.Memory };

    fn from(_refused: AllocFailed<T>) -> LpStop {
        LpStop::Memory
    }
}

/// Why there are no plans.
#[derive(Clone, Copy, Debug, PartialEq, Eq)]
pub enum PlanStop {
    /// A step does not fit: the first.
    Range {
        /// The player, 0 or 1.
        player: u32,
        /// The step.
        unfit: Unfit,
    },
    /// Memory ran out.
    Memory,
}

impl From<Memory> for PlanStop {
    ghost use Rattle.std.specs.Prelude.{◌≡◌};
    ghost use Rattle.zero_sum_lp.specs.declared.stop.PlanStop.TheVariants as stops;

    ghost from_gives = { λ _ e. e ≡ stops.Memory };

    fn from(_memory: Memory) -> PlanStop {
        PlanStop::Memory
    }
}
