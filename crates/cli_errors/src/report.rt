//! Writing of a line to standard error.

ghost use Rattle.std.specs.Prelude.{◌≡◌, ◌⊎◌};
ghost use Rattle.cli_spec.specs.declared.status.Status.TheVariants.{WriteFault};
ghost use Rattle.base_io.specs.Sink.{Writes, WritesPart};
ghost use Rattle.base_io.specs.StreamState.{change};

use base_io::{Failed, Sink, write_all};
use cli_spec::status::Status;

/// Writes a line to standard error and returns the given status. If a write fails, returns
/// `WriteFault`.
pub fn report<E: Sink>(err: &mut E, line: &[u8], status: Status) -> Status
    ensures { (Writes (change (E.state err.old) (E.state err.new)) line.now × (result ≡ status))
        ⊎ (WritesPart (change (E.state err.old) (E.state err.new)) line.now
        × (result ≡ WriteFault)) }
{
    match write_all(err, line) {
        Ok(()) => status,
        Err(Failed) => Status::WriteFault,
    }
}
