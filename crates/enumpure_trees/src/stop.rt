// Why the choices that pass were not listed.
use answers::Memory;
use enumpure::ListStop;
use frac128::Unfit;
use game_core::TooLarge;
use std::alloc::AllocFailed;

/// Why the choices that pass were not listed. Choices, nodes and players are numbered from 0.
#[derive(Clone, Copy, Debug, PartialEq, Eq)]
pub enum ChoiceStop {
    /// The values would be more than 1,048,576, or the text would have more than 67,108,864 bytes.
    TooLarge(TooLarge),
    /// A step of a value does not fit: the first, choices in order, in each node by node and player
    /// by player.
    Range {
        /// The choice.
        choice: u32,
        /// The node.
        node: u32,
        /// The player.
        player: u32,
        /// The step.
        unfit: Unfit,
    },
    /// Memory ran out.
    Memory,
}

impl From<Memory> for ChoiceStop {
    ghost use Rattle.std.specs.Prelude.{◌≡◌};
    ghost use Rattle.enumpure_trees.specs.declared.stop.ChoiceStop.TheVariants as stops;

    ghost from_gives = { λ _ e. e ≡ stops.Memory };

    fn from(_memory: Memory) -> ChoiceStop {
        ChoiceStop::Memory
    }
}

impl<T: Drop> From<AllocFailed<T>> for ChoiceStop {
    ghost use Rattle.std.specs.Prelude.{◌≡◌};
    ghost use Rattle.enumpure_trees.specs.declared.stop.ChoiceStop.TheVariants as stops;

    ghost from_gives = { λ _ e. e ≡ stops.Memory };

    fn from(_refused: AllocFailed<T>) -> ChoiceStop {
        ChoiceStop::Memory
    }
}

impl From<ListStop> for ChoiceStop {
    ghost use Rattle.std.specs.Prelude.{◌≡◌};
    ghost use Rattle.enumpure_trees.specs.Told.{text_stop};

    ghost from_gives = { λ stop e. e ≡ text_stop stop };

    fn from(stop: ListStop) -> ChoiceStop {
        match stop {
            ListStop::TooLarge(limit) => ChoiceStop::TooLarge(limit),
            ListStop::Memory => ChoiceStop::Memory,
        }
    }
}
