//! The reasons why a value does not have a type.

use base_data::model::path::Path;

/// A fault: a type mismatch or an aliasing conflict. A type mismatch has the path to the part that
/// does not match its type. An aliasing conflict has two paths to one object at unequal types, and
/// the object is mutable at one of the two types. An aliasing conflict states the lesser path
/// first.
#[derive(Drop)]
pub enum Fault {
    Mismatch(Path),
    Conflict(Path, Path),
}
