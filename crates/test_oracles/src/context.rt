//! The location of a token.

ghost use Rattle.test_oracles.specs.Sums.{AreFew};

use crate::words::Sums;
use base_data::model::header::Head;

/// What precedes a token:
///
/// - `head`: the contents of the header,
/// - `start`: the length of the header in bytes,
/// - `taken`: the number of data bytes before the token,
/// - `sums`: the sums over the earlier tokens.
#[derive(Clone, Copy)]
pub struct Context {
    pub head: Head,
    pub start: u64,
    pub taken: u64,
    pub sums: Sums,
    ghost few: { AreFew sums },
}
