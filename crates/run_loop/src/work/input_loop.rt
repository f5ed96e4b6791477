//! The loop that reads the input in chunks.

ghost use Rattle.std.specs.Prelude.{◌≡◌, [], length, vec_len, IfOk};
ghost use Rattle.base_io.specs.StreamState.{change};
ghost use Rattle.run_spec.specs.runs.Given.{chunk_limit};
ghost use Rattle.run_loop.specs.work.Runs.{Runs};

use crate::work::{Work, feed_chunk};
use base_data::model::Memory;
use base_io::{Sink, Source};
use cli_errors::exit_line::Error;
use cli_spec::exit::Exit;
use std::alloc::Global;

/// The size in bytes of a read from the input.
const CHUNK: usize = 65536;

/// The length in bytes from which on an input is refused as too long.
pub const LENGTH_LIMIT: usize = 1 << 48;

/// Allocates the buffer for a read from the input. Fails with `Memory` if memory runs out.
pub fn new_buffer(alloc: Global) -> Result<Vec<u8>, Memory>
    ensures { IfOk result (λ buffer. vec_len buffer ≡ chunk_limit) }
{
    Ok(vec![in alloc; 0; CHUNK]?)
}

/// Reads the input chunk by chunk from the first byte on. The output for the items that end in a
/// chunk is written before the next chunk is requested.
fn take_chunks<W: Work, S: Source, K: Sink>(
    alloc: Global,
    work: &mut W,
    input: &mut S,
    out: &mut K,
    buffer: &mut [u8],
) -> Result<bool, Error>
    requires reads { W.commands.Reads (W.act work.old) }
    requires has { W.has work.old [] [] }
    requires room { length buffer.old ≡ chunk_limit }
    ensures { Runs W.commands (W.act work.old) (change (S.state input.old) (S.state input.new))
        (change (K.state out.old) (K.state out.new)) result }
{
    let mut taken = 0;
    while taken < LENGTH_LIMIT {
        work.laws();
        let Ok(n) = input.take(buffer) else {
            return Err(Error::Exit(Exit::ReadFault));
        };
        if n == 0 {
            return work.end(alloc, out);
        }
        feed_chunk(alloc, work, &buffer[..n], out)?;
        taken += n;
    }
    work.laws();
    Err(Error::Exit(Exit::TooLong))
}

/// Runs the command on its input, or without an input if the command reads none. Returns true if no
/// output has an error. If the run ends early or writing to out fails, `run_work` fails.
pub fn run_work<W: Work, S: Source, K: Sink>(
    alloc: Global,
    work: &mut W,
    input: &mut S,
    out: &mut K,
) -> Result<bool, Error>
    requires { W.has work.old [] [] }
    ensures runs { Runs W.commands (W.act work.old) (change (S.state input.old) (S.state input.new))
        (change (K.state out.old) (K.state out.new)) result }
    ensures unread { (W.commands.Reads (W.act work.old) → ⊥) → input.new ≡ input.old }
{
    if work.reads() {
        work.laws();
        let Ok(mut buffer) = new_buffer(alloc) else {
            return Err(Error::Exit(Exit::Memory));
        };
        take_chunks(alloc, work, input, out, &mut buffer)
    } else {
        work.end(alloc, out)
    }
}
