//! An arena of 64-bit words: a growable array whose capacity contracts can see (`spare`). After one
//! reservation of room, callers append words without further checks. All code that uses pointers is
//! in the module `block`.

mod block;
pub mod region;
