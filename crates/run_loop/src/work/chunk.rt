//! Feeds a whole chunk of the input to a command.

ghost use Rattle.std.specs.Prelude.{◌≡◌, ◌<◌, ◌≤◌, ◌^◌, ℕ, List, length};
ghost use Rattle.base_data.specs.model.Bytes.{AreBytes};
ghost use Rattle.cli_spec.specs.Outcome.{Output};
ghost use Rattle.base_io.specs.StreamState.{change};
ghost use Rattle.run_spec.specs.runs.Given.{chunk_limit};
ghost use Rattle.run_loop.specs.work.Works.{FeedsAll};

use crate::work::{Work, feed_some};
use base_data::model::bytes::skip;
use base_io::Sink;
use cli_errors::exit_line::Error;
use std::alloc::Global;

/// Consumes a whole chunk, and writes the output for the items that end in the chunk. If the run
/// ends within the chunk, memory runs out, or writing fails, `feed_chunk` fails.
pub fn feed_chunk<W: Work, K: Sink>(
    alloc: Global,
    work: &mut W,
    chunk: &[u8],
    out: &mut K,
) -> Result<(), Error>
    requires short { length chunk.now ≤ chunk_limit }
    requires reads { W.commands.Reads (W.act work.old) }
    requires has { (bytes : List ℕ) × (output : List Output) × W.has work.old bytes output
        × (length bytes < 2 ^ 48) }
    ensures kept { W.act work.new ≡ W.act work.old }
    ensures feeds { FeedsAll W.commands (W.act work.old) (W.has work.old) (W.has work.new) chunk.now
        (change (K.state out.old) (K.state out.new)) result }
    ensures are_bytes { AreBytes chunk.now }
{
    let mut rest = chunk;
    while !rest.is_empty() {
        let taken = feed_some(alloc, work, rest, out)?;
        rest = skip(rest, taken);
    }
    Ok(())
}
