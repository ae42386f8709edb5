// Why a table is not laid out.
ghost use Rattle.std.specs.Prelude.{◌≡◌};

use answers::Memory;
use game_core::{TooLarge, too_long_text};

/// Why a table was not laid out. Players count from 1.
#[derive(Clone, Copy, Debug, PartialEq, Eq)]
pub enum ConvertStop {
    /// The row player or the column player is none of the game's players.
    NoSuchPlayer {
        /// The number that was asked for.
        number: u32,
    },
    /// The row player is the column player.
    SamePlayer {
        /// The number of both.
        number: u32,
    },
    /// The layout would have more than 67,108,864 bytes.
    TooLarge(TooLarge),
    /// Memory ran out.
    Memory,
}

impl From<LayoutStop> for ConvertStop {
    ghost use Rattle.std.specs.Prelude.{◌≡◌};
    ghost use Rattle.convert_tables.specs.Converted.{layout_stop};

    ghost from_gives = { λ stop e. e ≡ layout_stop stop };

    fn from(stop: LayoutStop) -> ConvertStop {
        match stop {
            LayoutStop::TooLong => ConvertStop::TooLarge(too_long_text()),
            LayoutStop::Memory => ConvertStop::Memory,
        }
    }
}

/// Why a layout was not written to its end.
#[derive(Clone, Copy, Debug, PartialEq, Eq)]
pub enum LayoutStop {
    /// It has more bytes than a text may have.
    TooLong,
    /// Memory ran out.
    Memory,
}

impl From<Memory> for LayoutStop {
    ghost use Rattle.std.specs.Prelude.{◌≡◌};
    ghost use Rattle.convert_tables.specs.declared.stops.LayoutStop.TheVariants as layout_stops;

    ghost from_gives = { λ _ e. e ≡ layout_stops.Memory };

    fn from(_memory: Memory) -> LayoutStop {
        LayoutStop::Memory
    }
}
