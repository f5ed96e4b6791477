//! The values and objects of a graph (`intext.h`).

use crate::model::list::List;

/// A value: an integer of 63 bits, an atom given by a tag, or a reference given by an object's
/// number.
#[derive(Clone, Copy, Debug, PartialEq, Eq)]
pub enum Val {
    Int(i64),
    Atom(u8),
    Ref(u64),
}

/// An object of a graph.
#[derive(Drop)]
pub enum Obj {
    Block(u8, List<Val>),
    Bytes(List<u8>),
    Double(u64),
    Doubles(List<u64>),
    I32(i32),
    I64(i64),
    Native(i64),
}
