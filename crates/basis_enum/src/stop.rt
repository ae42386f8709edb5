// Why an enumeration has no vertices.
ghost use Rattle.std.specs.Prelude.{◌≡◌};

use answers::Memory;
use frac128::Unfit;
use game_core::TooLarge;
use lex_tableau::StartStop;
use std::alloc::{AllocError, AllocFailed};
use std::fmt;
use std::marker::Model;

/// The variables of a basis, in ascending order.
#[derive(Debug, Drop)]
pub struct Basis {
    variables: Vec<u32>,
}

impl Model for Basis {
    ghost use Rattle.std.specs.Prelude.{ℕ, List};

    ghost Value = { List ℕ };

    ghost view = { λ b. b.variables.items };
}

impl Basis {
    pub(crate) fn new(variables: Vec<u32>) -> Basis
        ensures { result ≡ variables.items }
    {
        Basis { variables }
    }

    /// The variables, in ascending order.
    pub fn variables(&self) -> &[u32]
        ensures { result.now ≡ self.now }
    {
        self.variables.as_slice()
    }
}

/// The variables, each after a space.
impl fmt::Display for Basis {
    ghost use Rattle.std.specs.Prelude.{Some};
    ghost use Rattle.basis_enum.specs.Texts.{spaced};

    ghost output = { λ basis. Some (spaced basis) };

    fn fmt<W: fmt::Write>(&self, f: &mut fmt::Formatter<W>) -> fmt::Result {
        for variable in self.variables() {
            write!(f, " {variable}")?;
        }
        Ok(())
    }
}

/// Why a system's vertices are not listed.
#[derive(Debug, Drop)]
pub enum EnumerationStop {
    /// A step of the start does not fit: the first.
    Start {
        /// The row, counted from 0.
        row: u32,
        /// The step.
        unfit: Unfit,
    },
    /// A step of a pivot to a new basis does not fit: the first.
    Range {
        /// The level of the basis from which the pivot goes, counted from 0.
        level: u32,
        /// That basis.
        basis: Basis,
        /// The variable that enters it.
        entering: u32,
        /// The step.
        unfit: Unfit,
    },
    /// There are too many bases: those of the levels so far and of the next one.
    TooLarge(TooLarge),
    /// Memory ran out.
    Memory,
}

impl From<TooLarge> for EnumerationStop {
    ghost use Rattle.std.specs.Prelude.{◌≡◌};
    ghost use Rattle.basis_enum.specs.declared.stop.EnumerationStop.TheVariants as stops;

    ghost from_gives = { λ limit e. e ≡ stops.TooLarge limit };

    fn from(limit: TooLarge) -> EnumerationStop {
        EnumerationStop::TooLarge(limit)
    }
}

impl From<StartStop> for EnumerationStop {
    ghost use Rattle.std.specs.Prelude.{◌≡◌};
    ghost use Rattle.basis_enum.specs.Reached.{told_start};

    ghost from_gives = { λ stop e. e ≡ told_start stop };

    fn from(stop: StartStop) -> EnumerationStop {
        match stop {
            StartStop::Unfit { row, unfit } => EnumerationStop::Start { row, unfit },
            StartStop::Memory => EnumerationStop::Memory,
        }
    }
}

impl From<Memory> for EnumerationStop {
    ghost use Rattle.std.specs.Prelude.{◌≡◌};
    ghost use Rattle.basis_enum.specs.declared.stop.EnumerationStop.TheVariants as stops;

    ghost from_gives = { λ _ e. e ≡ stops.Memory };

    fn from(_memory: Memory) -> EnumerationStop {
        EnumerationStop::Memory
    }
}

impl From<AllocError> for EnumerationStop {
    ghost use Rattle.std.specs.Prelude.{◌≡◌};
    ghost use Rattle.basis_enum.specs.declared.stop.EnumerationStop.TheVariants as stops;

    ghost from_gives = { λ _ e. e ≡ stops.Memory };

    fn from(_error: AllocError) -> EnumerationStop {
        EnumerationStop::Memory
    }
}

impl<T: Drop> From<AllocFailed<T>> for EnumerationStop {
    ghost use Rattle.std.specs.Prelude.{◌≡◌};
    ghost use Rattle.basis_enum.specs.declared.stop.EnumerationStop.TheVariants as stops;

    ghost from_gives = { λ _ e. e ≡ stops.Memory };

    fn from(_refused: AllocFailed<T>) -> EnumerationStop {
        EnumerationStop::Memory
    }
}
