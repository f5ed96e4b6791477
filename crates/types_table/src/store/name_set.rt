//! Interned names: each name has a number.

ghost use Rattle.std.specs.Prelude.{◌≡◌, ◌<◌, [], Some, length, slice_get, IfOk, OnErr};
ghost use Rattle.types_table.specs.store.Held.{AddsOnce};

use base_data::model::Memory;
use indexmap::IndexSet;
use std::alloc::Global;
use std::marker::Model;

/// A set of names in which each name occurs once. Contracts see a set of names as the list of the
/// names in insertion order.
#[derive(Drop)]
pub struct NameSet {
    texts: IndexSet<Vec<u8>>,
}

impl Model for NameSet {
    ghost use Rattle.std.specs.Prelude.{ℕ, List};

    ghost Value = { List (List ℕ) };

    ghost use Rattle.types_table.specs.store.StoredTexts.{texts_of};
    ghost use Rattle.types_table.specs.store.Held.{AreDistinct};

    ghost view = { λ n. texts_of n.texts.keys };

    ghost invariant = { λ n. AreDistinct (texts_of n.texts.keys) };
}

impl NameSet {
    ghost use Rattle.types_table.specs.store.Held.{AreDistinct};

    /// Returns an empty set.
    pub fn new(alloc: Global) -> NameSet
        ensures { result ≡ [] }
    {
        NameSet {
            texts: IndexSet::new(alloc),
        }
    }

    /// Returns the number of a name, and adds the name if it is missing. If `Memory` is returned,
    /// the set is unchanged.
    pub fn number(&mut self, name: &[u8]) -> Result<usize, Memory>
        ensures ok { IfOk result (AddsOnce self.old self.new name.now) }
        ensures err { OnErr result (self.new ≡ self.old) }
        ensures distinct { AreDistinct self.new }
    {
        match self.texts.get_index_of(name) {
            Some(number) => Ok(number),
            None => {
                let text = Vec::from_slice(*self.texts.allocator(), name)?;
                let (number, _) = self.texts.insert_full(text)?;
                Ok(number)
            }
        }
    }

    /// Returns the name with this number.
    pub fn name(&self, number: usize) -> &[u8]
        requires { number < length self.now }
        ensures { slice_get self.now number ≡ Some result.now }
    {
        self.texts.as_slice()[number].as_slice()
    }
}
