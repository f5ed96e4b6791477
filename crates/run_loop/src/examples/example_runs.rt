//! Complete runs of the small commands.

ghost use Rattle.std.specs.Prelude.{◌≡◌};
ghost use Rattle.base_io.specs.StreamState.{change};
ghost use Rattle.run_loop.specs.work.Reported.{HasAccount};
ghost use Rattle.run_loop.specs.examples.SmallCommands.{reporting, lines, bytes_but};

use crate::examples::{BytesBut, Lines, Reporting};
use crate::work::run_reported;
use base_io::{Sink, Source};
use cli_spec::status::Status;
use std::alloc::Global;

/// Writes the text and reads no input. Returns the exit status.
pub fn run_reporting<S: Source, K: Sink, E: Sink>(
    alloc: Global,
    text: &[u8],
    input: &mut S,
    out: &mut K,
    err: &mut E,
) -> Status
    ensures account { HasAccount reporting text.now
        (change (S.state input.old) (S.state input.new))
        (change (K.state out.old) (K.state out.new))
        (change (E.state err.old) (E.state err.new)) result }
    ensures unread { input.new ≡ input.old }
{
    run_reported(alloc, &mut Reporting { text }, input, out, err)
}

/// Copies each line of the input to the output. Returns the exit status.
pub fn run_lines<S: Source, K: Sink, E: Sink>(
    alloc: Global,
    input: &mut S,
    out: &mut K,
    err: &mut E,
) -> Status
    ensures { HasAccount lines tt
        (change (S.state input.old) (S.state input.new))
        (change (K.state out.old) (K.state out.new))
        (change (E.state err.old) (E.state err.new)) result }
{
    run_reported(alloc, &mut Lines::new(alloc), input, out, err)
}

/// Copies each byte of the input to the output, and refuses the byte value `refused`. Returns the
/// exit status.
pub fn run_bytes<S: Source, K: Sink, E: Sink>(
    alloc: Global,
    refused: u8,
    input: &mut S,
    out: &mut K,
    err: &mut E,
) -> Status
    ensures { HasAccount bytes_but refused
        (change (S.state input.old) (S.state input.new))
        (change (K.state out.old) (K.state out.new))
        (change (E.state err.old) (E.state err.new)) result }
{
    run_reported(alloc, &mut BytesBut::new(refused), input, out, err)
}
