//! The codes that begin the tokens of a marshalled value (`intext.h`). `code_kind` decodes a code
//! byte. `encode_int`, `encode_block` and similar functions encode tokens as OCaml's runtime writes
//! them (`extern.c`).

mod code_encoding;
mod kind_of_code;
mod known_kind;

pub use base_data::model::code::{CodeFault, CodeKind};
pub use code_encoding::{
    encode_block, encode_double_array_len, encode_int, encode_shared, encode_string_len,
};
pub use kind_of_code::code_kind;
pub use known_kind::KnownKind;
