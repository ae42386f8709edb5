// Why a tree is not read.
use answers::Memory;
use game_core::TooLarge;
use std::alloc::AllocError;
use tree_grammar::EfgKind;

/// A fault in a file of a tree: its kind, and the byte offset from 0 of the token named, or the
/// source's length where the tokens end too early.
#[derive(Clone, Copy, Debug, PartialEq, Eq)]
pub struct EfgFault {
    /// The offset.
    pub at: usize,
    /// The kind.
    pub kind: EfgKind,
}

/// Why a tree was not read.
#[derive(Clone, Copy, Debug, PartialEq, Eq)]
pub enum EfgStop {
    /// The tokens are no file of a tree.
    Fault(EfgFault),
    /// There would be more than 65,536 nodes, or a node more than 1,024 edges from the root.
    TooLarge(TooLarge),
    /// Memory ran out.
    Memory,
}

impl From<AllocError> for EfgStop {
    ghost use Rattle.std.specs.Prelude.{◌≡◌};
    ghost use Rattle.efg_reader.specs.declared.fault.EfgStop.TheVariants.{Memory};

    ghost from_gives = { λ _ e. e ≡ Memory };

    fn from(_error: AllocError) -> EfgStop {
        EfgStop::Memory
    }
}

impl From<Memory> for EfgStop {
    ghost use Rattle.std.specs.Prelude.{◌≡◌};
    ghost use Rattle.efg_reader.specs.declared.fault.EfgStop.TheVariants as stops;

    ghost from_gives = { λ _ e. e ≡ stops.Memory };

    fn from(_memory: Memory) -> EfgStop {
        EfgStop::Memory
    }
}
