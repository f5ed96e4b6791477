//! The token that a byte string begins with (`intext.h`, `intern.c`). `decode` returns the summary
//! and the length of the token, or that more bytes are needed, or why no token begins with the
//! bytes. `decode_kind` computes the result of `decode` for a code whose kind the caller knows.

mod len;
mod summary;
mod token_fault;
mod token_number;
mod token_step;

pub use len::{chunk_len, custom_at, custom_len, field_len, fixed_len, native_len};
pub use summary::{Summary, fields_of, is_countable, measure_of};
pub use token_fault::TokenFault;
pub use token_number::{number_at, number_of, signed_of};
pub use token_step::{TokenStep, decode, decode_kind};
