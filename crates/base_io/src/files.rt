//! Access to files by name.

ghost use Rattle.std.specs.Prelude.{◌≡◌, [], ◌∷◌, ◌++◌, None, is_some, IsSome, IsSomeAnd, IfSome};
ghost use Rattle.std.specs.Prelude.{OnOk, OnErr, IsErrOf};
ghost use Rattle.base_io.specs.History.{fetched, error_of};
ghost use Rattle.base_io.specs.Source.{TakesPrefix};
ghost use Rattle.base_io.specs.StreamState.{FilesState, as_source};

use crate::Failed;
use base_data::model::Memory;
use std::alloc::AllocError;
use thiserror::Error;

/// The reason why a file was not opened. `Missing` means that no file has the name, and `Failed`
/// that the file cannot be opened.
#[derive(Clone, Copy, Debug, PartialEq, Eq, Error)]
pub enum OpenError {
    #[error("the file cannot be opened")]
    Failed,
    #[error("there is no such file")]
    Missing,
    #[error("out of memory")]
    Memory,
}

impl From<Memory> for OpenError {
    ghost use Rattle.std.specs.Prelude.{◌≡◌};
    ghost use Rattle.base_io.specs.declared.files.OpenError.TheVariants.{Memory as OutOfMemory};

    ghost from_gives = { λ _ e. e ≡ OutOfMemory };

    fn from(_: Memory) -> Self {
        OpenError::Memory
    }
}

impl From<AllocError> for OpenError {
    ghost use Rattle.std.specs.Prelude.{◌≡◌};
    ghost use Rattle.base_io.specs.declared.files.OpenError.TheVariants.{Memory as OutOfMemory};

    ghost from_gives = { λ _ e. e ≡ OutOfMemory };

    fn from(_: AllocError) -> Self {
        OpenError::Memory
    }
}

/// Access to files by name. `fetch` opens a file, and `take` reads the bytes of the file that was
/// fetched last.
pub trait Opener {
    ghost use Rattle.base_io.specs.Files.{contents_of, OpensFile};

    /// The state of the files. If the files are known, the state contains the map from names to
    /// bytes and the remaining bytes of the file fetched last. The state also contains the calls so
    /// far.
    ghost state: { Self → FilesState };

    /// Reads the next bytes of the file fetched last, as `Source::take` does.
    fn take(&mut self, buf: &mut [u8]) -> Result<usize, Failed>
        ensures takes { TakesPrefix (as_source (state self.old)) (as_source (state self.new))
            result buf.new }
        ensures frame { state self.new ≡ record (state self.old) {
          left = (state self.new).left;
          calls = (state self.new).calls;
        } };

    /// Opens the file with this name for later calls of `take`. If `fetch` returns an error, no
    /// bytes remain to be read.
    fn fetch(&mut self, name: &str) -> Result<(), OpenError>
        ensures opened { OnOk result
            (IfSome (state self.old).map (λ all. OpensFile all name.now (state self.new).left)) }
        ensures refused { OnErr result
            (IsSome (state self.old).map → (state self.new).left ≡ Some []) }
        ensures missing { IsErrOf result OpenError.Missing →
            IsSomeAnd (state self.old).map (λ all. contents_of all name.now ≡ None) }
        ensures called { (state self.new).calls
            ≡ (state self.old).calls ++ fetched name.now (error_of result) ∷ [] }
        ensures known { is_some (state self.new).left ≡ is_some (state self.old).left }
        ensures frame { state self.new ≡ record (state self.old) {
          left = (state self.new).left;
          calls = (state self.new).calls;
        } };
}
