//! The data of a `Nativeint`.

ghost use Rattle.std.specs.Prelude.{◌≡◌, ◌≤◌};
ghost use Rattle.marshal_codec.specs.customs.Data.{number_step, native_step, IsStep};

use base_data::model::bytes::signed;

/// The result of decoding the first bytes of a `Nativeint`'s data.
#[derive(Clone, Copy)]
pub enum NativeStep {
    /// The number of bytes that are missing. The missing bytes end with the kind byte if the kind
    /// byte is missing, and otherwise with the number.
    More(usize),
    /// The number.
    Value(i64),
    /// An invalid kind byte.
    BadNative(u8),
}

/// Decodes the data of a `Nativeint` at the beginning of `bytes` (`ints.c`). Bytes may follow the
/// number.
pub fn read_native(bytes: &[u8]) -> NativeStep
    ensures step { result ≡ native_step bytes.now }
    ensures says { IsStep bytes.now result }
{
    match bytes {
        [] => NativeStep::More(1),
        [1, rest @ ..] => number(rest, 4),
        [2, rest @ ..] => number(rest, 8),
        [kind, ..] => NativeStep::BadNative(*kind),
    }
}

// Decodes a number of `size` bytes.
fn number(bytes: &[u8], size: usize) -> NativeStep
    requires some { 1 ≤ size }
    requires few { size ≤ 8 }
    ensures { result ≡ number_step size bytes.now }
{
    if bytes.len() < size {
        NativeStep::More(size - bytes.len())
    } else {
        NativeStep::Value(signed(&bytes[..size]))
    }
}
