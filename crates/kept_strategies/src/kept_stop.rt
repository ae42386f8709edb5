// Why the kept strategies of a table are not looked for.
use answers::Memory;
use game_core::TooLarge;

/// Why the kept strategies of a table are not looked for.
#[derive(Clone, Copy, Debug, PartialEq, Eq)]
pub enum KeptStop {
    /// The game has another number of players.
    NotTwoPlayers {
        /// How many players there are.
        count: u32,
    },
    /// Both players together have more than 512 strategies.
    TooLarge(TooLarge),
    /// Memory ran out.
    Memory,
}

impl From<TooLarge> for KeptStop {
    ghost use Rattle.std.specs.Prelude.{◌≡◌};
    ghost use Rattle.kept_strategies.specs.declared.kept_stop.KeptStop.TheVariants as stops;

    ghost from_gives = { λ limit e. e ≡ stops.TooLarge limit };

    fn from(limit: TooLarge) -> KeptStop {
        KeptStop::TooLarge(limit)
    }
}

impl From<Memory> for KeptStop {
    ghost use Rattle.std.specs.Prelude.{◌≡◌};
    ghost use Rattle.kept_strategies.specs.declared.kept_stop.KeptStop.TheVariants as stops;

    ghost from_gives = { λ _ e. e ≡ stops.Memory };

    fn from(_memory: Memory) -> KeptStop {
        KeptStop::Memory
    }
}
