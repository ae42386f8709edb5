// Names of players, strategies and games.
ghost use Rattle.std.specs.Prelude.{◌≡◌, IfOk};

use answers::Memory;
use std::alloc::{AllocError, Global};
use std::marker::Model;

/// A name: any bytes, as they stand in a file. Contracts see it as the list of its bytes.
#[derive(Debug, Drop)]
pub struct Name {
    bytes: Vec<u8>,
}

impl Model for Name {
    ghost use Rattle.std.specs.Prelude.{List, ℕ};

    ghost Value = { List ℕ };

    ghost view = { λ n. n.bytes.items };
}

impl Name {
    /// The name with these bytes. Takes no memory.
    pub fn new(bytes: Vec<u8>) -> Name
        ensures { result ≡ bytes.items }
    {
        Name { bytes }
    }

    /// Its bytes.
    pub fn bytes(&self) -> &[u8]
        ensures { result.now ≡ self.now }
    {
        self.bytes.as_slice()
    }

    /// Gives the bytes back. Takes no memory.
    pub fn into_bytes(self) -> Vec<u8>
        ensures { result.items ≡ self }
    {
        let Name { bytes } = self;
        bytes
    }
}

/// A name of its own with these bytes.
///
/// # Errors
///
/// Memory ran out.
pub fn copied(alloc: Global, name: &Name) -> Result<Name, AllocError>
    ensures { IfOk result (λ copy. copy ≡ name.now) }
{
    Ok(Name::new(Vec::from_slice(alloc, name.bytes())?))
}

/// Names of their own with the same bytes.
///
/// # Errors
///
/// Memory ran out.
pub fn copied_names(alloc: Global, names: &[Name]) -> Result<Vec<Name>, Memory>
    ensures { IfOk result (λ copies. copies.items ≡ names.now) }
{
    let mut copies = Vec::with_capacity(alloc, names.len())?;
    for name in names {
        copies.push(copied(alloc, name)?)?;
    }
    Ok(copies)
}
