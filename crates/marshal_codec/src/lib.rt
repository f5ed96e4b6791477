//! Decodes and encodes the parts of a Marshal stream: token codes, headers, and custom blocks.
//!
//! The crate owns no format definition: each function computes a definition of `marshal_spec`.
//!
//! - `codes`: The kind of token that a code begins (`code_kind`, `intext.h`), and the bytes that
//!   `extern.c` writes for integers, blocks, lengths and references (for example `encode_int`).
//! - `headers`: Parses and encodes headers (`parse`, `encode`), and computes the 64-bit and 32-bit
//!   words that an object takes (`words_of`).
//! - `customs`: The custom blocks `Int32`, `Int64` and `Nativeint` of `ints.c` (`ident`,
//!   `read_native`, `encode`).
//! - `token`: The token that bytes begin with (`decode`): its summary and its length in bytes. Also
//!   the numbers and sizes of its parts (for example `number_of`, `chunk_len`, `fixed_len`).
//!
//! Promises:
//!
//! - `code_kind` returns the kind of the code, or why the code begins no token.
//! - `headers::parse` returns the header that the bytes begin with, or that more bytes are needed,
//!   or why no header begins with the bytes.
//! - `token::decode` returns the summary and the length of the token that the bytes begin with. If
//!   there is no complete token, `decode` returns that more bytes are needed, or why the bytes
//!   begin no token.
//! - `encode_int`, `encode_block`, `encode_string_len`, `encode_double_array_len` and
//!   `encode_shared` return at most nine bytes of the canonical encoding.
//! - `headers::encode` and `customs::encode` return the canonical bytes of a header and of a custom
//!   block.
//! - `words_of` returns the words of an object with the header word, on 32 and on 64 bits.
//!
//! Leaves out: whole values (`marshal_read`, `marshal_write`), and the steps that compare a token
//! with the header (`marshal_read`). Other custom blocks are not decoded.
#![tactic(auto)]

pub mod codes;
pub mod customs;
pub mod headers;
pub mod token;
