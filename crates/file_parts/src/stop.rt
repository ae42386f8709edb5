// Why a part of a file was not read.

use game_core::Spanned;
use std::alloc::{AllocError, AllocFailed};

/// That a token does not fit. `K` is what the reader of the file names a fault by.
#[derive(Clone, Copy, Debug, PartialEq, Eq)]
pub struct Unexpected<K> {
    /// The kind of the fault.
    pub kind: K,
    /// How many tokens are left from that token on.
    pub left: usize,
}

impl<K> Unexpected<K> {
    ghost use Rattle.std.specs.Prelude.{◌≡◌};
    ghost use Rattle.game_core.specs.TokenList.{bare};
    ghost use Rattle.file_parts.specs.Parsing.{unexpected_at};

    /// That the first of these tokens does not fit.
    pub fn first_of(kind: K, tokens: &[Spanned]) -> Unexpected<K>
        ensures { result ≡ unexpected_at kind (bare tokens.now) }
    {
        Unexpected {
            kind,
            left: tokens.len(),
        }
    }
}

/// Why a part of a file was not read. `K` is what the reader of the file names a fault by.
#[derive(Clone, Copy, Debug, PartialEq, Eq)]
pub enum PartStop<K> {
    /// A token does not fit.
    Unexpected(Unexpected<K>),
    /// Memory ran out.
    Memory,
}

impl<K> From<Unexpected<K>> for PartStop<K> {
    ghost use Rattle.std.specs.Prelude.{◌≡◌};
    ghost use Rattle.file_parts.specs.declared.stop.PartStop.TheVariants as part_stops;

    ghost from_gives = { λ fault e. e ≡ part_stops.Unexpected fault };

    fn from(fault: Unexpected<K>) -> PartStop<K> {
        PartStop::Unexpected(fault)
    }
}

impl<K> From<AllocError> for PartStop<K> {
    ghost use Rattle.std.specs.Prelude.{◌≡◌};
    ghost use Rattle.file_parts.specs.declared.stop.PartStop.TheVariants.{Memory};

    ghost from_gives = { λ _ e. e ≡ Memory };

    fn from(_error: AllocError) -> PartStop<K> {
        PartStop::Memory
    }
}

impl<K, T: Drop> From<AllocFailed<T>> for PartStop<K> {
    ghost use Rattle.std.specs.Prelude.{◌≡◌};
    ghost use Rattle.file_parts.specs.declared.stop.PartStop.TheVariants.{Memory};

    ghost from_gives = { λ _ e. e ≡ Memory };

    fn from(_error: AllocFailed<T>) -> PartStop<K> {
        PartStop::Memory
    }
}
