//! Sinks: destinations to which bytes are written.

ghost use Rattle.std.specs.Prelude.{◌≡◌, [], IsOk, IsSome, MatchResult};
ghost use Rattle.base_io.specs.Sink.{AppendsPrefix, Writes, WritesPart};
ghost use Rattle.base_io.specs.StreamState.{ByteState, change};
ghost use Rattle.base_io.specs.declared.sink.WriteError.TheVariants.{Fault, Memory as OutOfMemory};

use crate::Failed;
use base_data::model::Memory;
use std::alloc::AllocError;
use thiserror::Error;

/// The reason why a value was not written: a call on the sink failed, or memory ran out.
#[derive(Clone, Copy, Debug, PartialEq, Eq, Error)]
pub enum WriteError {
    #[error("write fault")]
    Fault,
    #[error("out of memory")]
    Memory,
}

impl From<Failed> for WriteError {
    ghost from_gives = { λ _ e. e ≡ Fault };

    fn from(_: Failed) -> Self {
        WriteError::Fault
    }
}

impl From<Memory> for WriteError {
    ghost from_gives = { λ _ e. e ≡ OutOfMemory };

    fn from(_: Memory) -> Self {
        WriteError::Memory
    }
}

impl From<AllocError> for WriteError {
    ghost from_gives = { λ _ e. e ≡ OutOfMemory };

    fn from(_: AllocError) -> Self {
        WriteError::Memory
    }
}

/// A destination to which bytes are written.
pub trait Sink {
    /// The bytes that were written to the sink, and the number of failed calls.
    ghost state: { Self → ByteState };

    /// Appends a prefix of `chunk` to the sink and returns the length of the prefix in bytes.
    fn write(&mut self, chunk: &[u8]) -> Result<usize, Failed>
        ensures { AppendsPrefix (state self.old) (state self.new) result chunk.now };

    /// Lemma method: the bytes that were written to the sink are known.
    fn knows_bytes(&self)
        ensures { IsSome (state self.now).bytes };
}

/// Writes all bytes, with as many calls of `write` as necessary. If there are no bytes, makes no
/// call.
#[inline(always)]
pub fn write_all<K: Sink>(sink: &mut K, bytes: &[u8]) -> Result<(), Failed>
    ensures writes { MatchResult result
        (λ _. Writes (change (K.state sink.old) (K.state sink.new)) bytes.now)
        (λ _. WritesPart (change (K.state sink.old) (K.state sink.new)) bytes.now) }
    ensures nothing { bytes.now ≡ [] → IsOk result }
    ensures untouched { bytes.now ≡ [] → sink.new ≡ sink.old }
{
    let mut at = 0;
    while at < bytes.len() {
        at += sink.write(&bytes[at..])?;
    }
    Ok(())
}
