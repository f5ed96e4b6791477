//! Plain data that several crates share: lists, the values and objects of a graph, codes, headers,
//! read errors and paths. The crate also defines when a graph is valid, and decodes numbers from
//! bytes.

pub mod bytes;
pub mod code;
pub mod header;
pub mod list;
mod out_of_memory;
pub mod path;
pub mod refusal;
pub mod value;

pub use out_of_memory::Memory;
