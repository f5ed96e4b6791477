//! The bytes of a file that is read completely.

ghost use Rattle.std.specs.Prelude.{◌≡◌, ◌++◌, OnOk};
ghost use Rattle.base_data.specs.model.Bytes.{AreBytes};

use base_data::model::Memory;

/// Why reading ended: at the end of the file, at a read error, or at the maximum length.
#[derive(Clone, Copy, Debug, PartialEq, Eq)]
pub enum InputEnd {
    End,
    Fault,
    Length,
}

/// The bytes that were read, and why reading ended.
#[derive(Drop)]
pub struct Gathered {
    pub bytes: Vec<u8>,
    pub until: InputEnd,
}

/// The length in bytes from which on a file is too long.
pub const LENGTH_LIMIT: usize = 1 << 48;

/// Appends a chunk. Fails with `Memory` if memory runs out.
pub fn store(bytes: &mut Vec<u8>, chunk: &[u8]) -> Result<(), Memory>
    ensures stored { OnOk result (bytes.new.items ≡ bytes.old.items ++ chunk.now) }
    ensures are_bytes { AreBytes chunk.now }
{
    Ok(bytes.extend_from_slice(chunk)?)
}
