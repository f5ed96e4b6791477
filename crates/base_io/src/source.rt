//! Sources: where bytes are read from.

ghost use Rattle.std.specs.Prelude.{IfSome};
ghost use Rattle.base_data.specs.model.Bytes.{AreBytes};
ghost use Rattle.base_io.specs.Source.{TakesPrefix};
ghost use Rattle.base_io.specs.StreamState.{SourceState};

/// A call to the environment failed.
#[derive(Clone, Copy, Debug, PartialEq, Eq)]
pub struct Failed;

/// A source from which bytes are read.
pub trait Source {
    /// The remaining bytes, if they are known, and the calls so far.
    ghost state: { Self → SourceState };

    /// Moves the next bytes to the start of the buffer and returns the number of moved bytes. The
    /// contents of the buffer after the moved bytes are unspecified.
    fn take(&mut self, buf: &mut [u8]) -> Result<usize, Failed>
        ensures { TakesPrefix (state self.old) (state self.new) result buf.new };

    /// Lemma method: if the remaining bytes are known, each of the remaining bytes is less than
    /// 256.
    fn reports_bytes(&self)
        ensures { IfSome (state self.now).bytes AreBytes };
}
