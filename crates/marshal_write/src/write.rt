//! Writes a value of a heap as the bytes that OCaml's runtime writes (`extern.c`). `write` promises
//! the canonical bytes of the value's tree (`canon`). If a 32-bit reader can hold the value,
//! `write32` writes the same bytes. The laws `written_is_read` and `read_is_written` show that
//! reading and writing are inverse to each other.

mod compat;
pub mod laws;
mod marks;
mod measure;
mod object_numbers;
mod token_encoding;
mod value_header;
mod write_buffer;
mod write_walk;
mod writer;
mod writer32;

pub use compat::Compat;
pub use object_numbers::{Numbers, number_objects};
pub use value_header::head_of;
pub use writer::write;
pub use writer32::{Write32Error, write32};
