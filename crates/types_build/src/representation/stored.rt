//! A type in a borrowed store of types.

ghost use Rattle.std.specs.Prelude.{◌<◌, length};

use types_table::store::TypeStore;

/// A type of a borrowed store, given by the type's index in the store.
#[derive(Clone, Copy)]
pub struct Stored<'a> {
    pub types: &'a TypeStore,
    pub number: usize,
    pub ghost there: { number < length types.now },
}
