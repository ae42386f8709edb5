// Why the extreme equilibria were not listed.
ghost use Rattle.std.specs.Prelude.{◌≡◌};
ghost use Rattle.enummixed.specs.Told.{enumeration_stop, scale_stop};

use answers::Memory;
use basis_enum::{Basis, EnumerationStop};
use enumpure::ListStop;
use frac128::Unfit;
use game_core::TooLarge;
use label_pairing::{PairStop, ScaleStop};
use reply_polytope::PolyStop;

/// Why the extreme equilibria were not listed. Players, polytopes, profiles, rows and levels are
/// counted from 0; the first polytope has the first player's strategies for its nonbasic variables.
#[derive(Debug, Drop)]
pub enum MixedStop {
    /// The game has another number of players.
    NotTwoPlayers {
        /// How many players there are.
        count: u32,
    },
    /// A count passed its limit: the strategies of both players, the bases of a polytope, the pairs
    /// of vertices, or the bytes of the text.
    TooLarge(TooLarge),
    /// A step of the shift of a player's payoffs does not fit: the first.
    Shift {
        /// The player.
        player: u32,
        /// The profile.
        profile: u32,
        /// The step.
        unfit: Unfit,
    },
    /// A step of the start of a polytope's enumeration does not fit: the first.
    Start {
        /// The polytope.
        polytope: u32,
        /// The row.
        row: u32,
        /// The step.
        unfit: Unfit,
    },
    /// A step of a pivot to a new basis does not fit: the first.
    Range {
        /// The polytope.
        polytope: u32,
        /// The level of the basis from which the pivot goes.
        level: u32,
        /// That basis.
        basis: Basis,
        /// The variable that enters it.
        entering: u32,
        /// The step.
        unfit: Unfit,
    },
    /// A step of the scaling of a vertex that stands in a pair does not fit: the first.
    Scale {
        /// The polytope.
        polytope: u32,
        /// The step.
        unfit: Unfit,
    },
    /// Memory ran out.
    Memory,
}

impl MixedStop {
    // Why the vertices of a polytope are not listed.
    pub(crate) fn of_enumeration(polytope: u32, stop: EnumerationStop) -> MixedStop
        ensures { result ≡ enumeration_stop polytope stop }
    {
        match stop {
            EnumerationStop::Start { row, unfit } => MixedStop::Start {
                polytope,
                row,
                unfit,
            },
            EnumerationStop::Range {
                level,
                basis,
                entering,
                unfit,
            } => MixedStop::Range {
                polytope,
                level,
                basis,
                entering,
                unfit,
            },
            EnumerationStop::TooLarge(limit) => MixedStop::TooLarge(limit),
            EnumerationStop::Memory => MixedStop::Memory,
        }
    }

    // Why a vertex of a polytope is not scaled.
    pub(crate) fn of_scaling(polytope: u32, stop: ScaleStop) -> MixedStop
        ensures { result ≡ scale_stop polytope stop }
    {
        match stop {
            ScaleStop::Range { unfit } => MixedStop::Scale { polytope, unfit },
            ScaleStop::Memory => MixedStop::Memory,
        }
    }
}

impl From<Memory> for MixedStop {
    ghost use Rattle.std.specs.Prelude.{◌≡◌};
    ghost use Rattle.enummixed.specs.declared.stop.MixedStop.TheVariants as stops;

    ghost from_gives = { λ _ e. e ≡ stops.Memory };

    fn from(_memory: Memory) -> MixedStop {
        MixedStop::Memory
    }
}

impl From<PolyStop> for MixedStop {
    ghost use Rattle.std.specs.Prelude.{◌≡◌};
    ghost use Rattle.enummixed.specs.Told.{polytopes_stop};

    ghost from_gives = { λ stop e. e ≡ polytopes_stop stop };

    fn from(stop: PolyStop) -> MixedStop {
        match stop {
            PolyStop::NotTwoPlayers { count } => MixedStop::NotTwoPlayers { count },
            PolyStop::TooLarge(limit) => MixedStop::TooLarge(limit),
            PolyStop::Range {
                player,
                profile,
                unfit,
            } => MixedStop::Shift {
                player,
                profile,
                unfit,
            },
            PolyStop::Memory => MixedStop::Memory,
        }
    }
}

impl From<PairStop> for MixedStop {
    ghost use Rattle.std.specs.Prelude.{◌≡◌};
    ghost use Rattle.enummixed.specs.Told.{pairs_stop};

    ghost from_gives = { λ stop e. e ≡ pairs_stop stop };

    fn from(stop: PairStop) -> MixedStop {
        match stop {
            PairStop::TooLarge(limit) => MixedStop::TooLarge(limit),
            PairStop::Memory => MixedStop::Memory,
        }
    }
}

impl From<ListStop> for MixedStop {
    ghost use Rattle.std.specs.Prelude.{◌≡◌};
    ghost use Rattle.enummixed.specs.Told.{text_stop};

    ghost from_gives = { λ stop e. e ≡ text_stop stop };

    fn from(stop: ListStop) -> MixedStop {
        match stop {
            ListStop::TooLarge(limit) => MixedStop::TooLarge(limit),
            ListStop::Memory => MixedStop::Memory,
        }
    }
}
