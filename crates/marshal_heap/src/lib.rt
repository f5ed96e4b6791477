//! Stores a graph of OCaml values in memory, and compares two values.
//!
//! - `arena`: A growable array of 64-bit words in raw memory (`Region`), the only module with
//!   pointers.
//! - `offsets`: A strictly increasing list of offsets (`OffsetList`), which also finds the index of
//!   an offset.
//! - `heap`: The graph (`Heap`), which contracts see as the list of its objects. `Rooted` is a
//!   value of a heap, and `NumberedObject` is an object of a heap.
//! - `isomorphism`: Decides whether two values are isomorphic (`same`).
//!
//! The crate promises:
//! - Each `Heap` is a graph: `count` ensures `IsHeap`.
//! - `add_block`, `add_bytes`, `add_double` and the other appending methods append exactly the
//!   given object, or return `Memory` and leave the heap unchanged (`Appends`).
//! - `field`, `kind`, `byte` and `double` return the parts of the object in the list.
//! - `set` changes one field of one block, and nothing else.
//! - `truncate` drops the objects from an index on.
//! - `isomorphism::same` returns true if and only if the two values are isomorphic (`Isomorphism`).
//!   Isomorphic values are equal up to the numbers of their objects, with doubles compared by their
//!   bits.
//!
//! The crate leaves out the bytes of a value (`marshal_read`, `marshal_write`), copies of a value
//! (`marshal_write`), and types (`check_heap`). The heap frees no single object. The crate does not
//! promise that looking up an offset takes constant time.
#![tactic(auto)]

pub mod arena;
pub mod heap;
pub mod isomorphism;
pub mod offsets;
