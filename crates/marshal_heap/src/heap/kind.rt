//! Defines the kinds of objects.

use base_data::model::code::Custom;

/// The kind and the size of an object. A block has a tag and a number of fields. A string has a
/// number of bytes, and an array of doubles has a number of doubles.
#[derive(Clone, Copy, Debug, PartialEq, Eq)]
pub enum Kind {
    Block(u8, u64),
    Bytes(u64),
    Double,
    Doubles(u64),
    Custom(Custom),
}
