//! Decides whether bytes that end inside a token are a prefix of some value. `truncated_len` checks
//! the incomplete token at the end of the bytes and returns a lower bound of the token's length. If
//! the header has room for the token, then all the bytes are a prefix of a value
//! (`underway_is_prefix`). If `truncated_len` cannot decide, the result is `None`.

mod laws;
mod truncated;

pub use laws::underway_is_prefix;
pub use truncated::truncated_len;
