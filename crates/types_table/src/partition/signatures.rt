//! A set of signatures with indices.

ghost use Rattle.std.specs.Prelude.{◌≡◌, ◌<◌, [], Some, length, slice_get, IfOk};
ghost use Rattle.types_table.specs.store.Held.{AddsOnce};

use base_data::model::Memory;
use indexmap::IndexSet;
use std::alloc::Global;
use std::marker::Model;

/// Signatures without repeats, in the order of insertion. Contracts treat the set as a list.
#[derive(Drop)]
pub struct Signatures {
    signatures: IndexSet<Vec<usize>>,
}

impl Model for Signatures {
    ghost use Rattle.std.specs.Prelude.{ℕ, List};

    ghost Value = { List (List ℕ) };

    ghost use Rattle.types_table.specs.store.StoredTexts.{texts_of};
    ghost use Rattle.types_table.specs.store.Held.{AreDistinct};

    ghost view = { λ s. texts_of s.signatures.keys };

    ghost invariant = { λ s. AreDistinct (texts_of s.signatures.keys) };
}

impl Signatures {
    ghost use Rattle.types_table.specs.store.Held.{AreDistinct};

    /// Creates an empty set.
    pub fn new(alloc: Global) -> Signatures
        ensures { result ≡ [] }
    {
        Signatures {
            signatures: IndexSet::new(alloc),
        }
    }

    /// Returns the number of signatures.
    pub fn len(&self) -> usize
        ensures { result ≡ length self.now }
    {
        self.signatures.len()
    }

    /// Returns the index of a signature. Adds the signature if it is not in the set.
    pub fn position(&mut self, signature: Vec<usize>) -> Result<usize, Memory>
        ensures ok { IfOk result (AddsOnce self.old self.new signature.items) }
        ensures distinct { AreDistinct self.new }
    {
        match self.signatures.get_index_of(signature.as_slice()) {
            Some(position) => Ok(position),
            None => {
                let (position, _) = self.signatures.insert_full(signature)?;
                Ok(position)
            }
        }
    }

    /// Returns the signature at an index.
    pub fn signature(&self, position: usize) -> &[usize]
        requires { position < length self.now }
        ensures { slice_get self.now position ≡ Some result.now }
    {
        self.signatures.as_slice()[position].as_slice()
    }
}
