//! A table of names with numbers.

ghost use Rattle.std.specs.Prelude.{◌≡◌, ℕ, List, OnOk, IfOk, None};
ghost use Rattle.types_resolve.specs.scope.NamePositions.{number_of, added};

use base_data::model::Memory;
use indexmap::IndexMap;
use std::alloc::Global;

/// A table that maps names to numbers.
#[derive(Drop)]
pub struct NameTable<'a> {
    entries: IndexMap<&'a [u8], usize>,
}

/// Makes a table without names.
pub fn empty<'a>(alloc: Global) -> NameTable<'a>
    ensures { (q : List ℕ) → number_of result q ≡ None }
{
    NameTable {
        entries: IndexMap::new(alloc),
    }
}

/// Returns the number of a name, or `None` if the table does not have the name.
pub fn find(table: &NameTable<'_>, name: &[u8]) -> Option<usize>
    ensures { result ≡ number_of table.now name.now }
{
    table.entries.get(name).copied()
}

/// Adds a name with the number `number`, unless the table has the name. Returns the number that the
/// table had for the name before the call.
pub fn add<'a>(
    table: &mut NameTable<'a>,
    name: &'a [u8],
    number: usize,
) -> Result<Option<usize>, Memory>
    ensures had { IfOk result (λ had. had ≡ number_of table.old name.now) }
    ensures added { OnOk result
        ((q : List ℕ) → number_of table.new q ≡ added (number_of table.old) name.now number q) }
{
    match find(table, name) {
        Some(had) => Ok(Some(had)),
        None => {
            table.entries.insert(name, number)?;
            Ok(None)
        }
    }
}
