//! A heap that stores the objects of a value as a graph. Callers append, fill and read objects by
//! the objects' numbers. Each object takes as many 64-bit words as OCaml's runtime counts for the
//! object on a 64-bit platform (`extern.c`). Contracts see a `Heap` as a list of objects, and each
//! heap satisfies `IsHeap`.

mod borrowed;
mod heap;
mod kind;
mod object_words;
mod objects;
mod strings;

pub use borrowed::{NumberedObject, Rooted};
pub use heap::Heap;
pub use kind::Kind;
