//! Collects the output for several items, and writes the collected output with one call.

ghost use Rattle.std.specs.Prelude.{◌≡◌, ◌<◌, ◌+◌, ◌^◌, ℕ, List, [], length};
ghost use Rattle.cli_spec.specs.Outcome.{Output};
ghost use Rattle.base_io.specs.StreamState.{change};
ghost use Rattle.run_loop.specs.work.GatheredOutput.{GathersOne, GathersSome, Gathers};
ghost use Rattle.run_loop.specs.work.Works.{ItemsStay, FeedsSome};

use crate::work::Work;
use base_io::{Failed, Sink, write_all};
use cli_errors::exit_line::Error;
use cli_spec::exit::Exit;
use std::alloc::Global;

/// If more than this many bytes are collected, then the collected bytes are written.
const GATHERED: usize = 1 << 20;

/// A sink that keeps the written bytes in memory.
#[derive(Drop)]
struct MemorySink {
    bytes: Vec<u8>,
}

impl Sink for MemorySink {
    ghost use Rattle.run_loop.specs.work.GatheredOutput.{text_state};

    ghost state = { λ t. text_state t.bytes.items };

    fn write(&mut self, chunk: &[u8]) -> Result<usize, Failed> {
        match self.bytes.extend_from_slice(chunk) {
            Ok(()) => Ok(chunk.len()),
            Err(_) => Err(Failed),
        }
    }

    fn knows_bytes(&self) {}
}

/// Consumes some of the current bytes. If an item ends with the consumed bytes, appends the output
/// of the item to a text.
fn gather_one<W: Work>(
    alloc: Global,
    work: &mut W,
    buffered: &[u8],
    text: &mut MemorySink,
) -> Result<usize, Error>
    requires some { 0 < length buffered.now }
    requires reads { W.commands.Reads (W.act work.old) }
    requires has { (bytes : List ℕ) × (output : List Output) × W.has work.old bytes output
        × (length bytes + length buffered.now < 2 ^ 63) }
    ensures kept { W.act work.new ≡ W.act work.old }
    ensures gathers { GathersOne W.commands (W.act work.old) (W.has work.old) (W.has work.new)
        buffered.now text.old.bytes.items text.new.bytes.items result }
    ensures stay { ItemsStay W.commands (W.act work.old) }
{
    work.laws();
    let before = text.bytes.len();
    match work.feed(alloc, buffered, text) {
        Ok(taken) => {
            work.laws();
            Ok(taken)
        }
        Err(Error::Exit(exit)) => Err(Error::Exit(exit)),
        Err(Error::WriteFault) => {
            text.bytes.truncate(before);
            Err(Error::Exit(Exit::Memory))
        }
    }
}

/// Consumes some of the current bytes, and appends the output to a text. If `pass` consumes bytes,
/// several items may end in them. If not, at most one item ends in the consumed bytes.
fn gather_some<W: Work>(
    alloc: Global,
    work: &mut W,
    buffered: &[u8],
    text: &mut MemorySink,
) -> Result<usize, Error>
    requires some { 0 < length buffered.now }
    requires reads { W.commands.Reads (W.act work.old) }
    requires has { (bytes : List ℕ) × (output : List Output) × W.has work.old bytes output
        × (length bytes + length buffered.now < 2 ^ 63) }
    ensures kept { W.act work.new ≡ W.act work.old }
    ensures gathers { GathersSome W.commands (W.act work.old) (W.has work.old) (W.has work.new)
        buffered.now text.old.bytes.items text.new.bytes.items result }
{
    work.laws();
    let Some(passed) = work.pass(alloc, buffered) else {
        return gather_one(alloc, work, buffered, text);
    };
    if passed.copied {
        match text.bytes.extend_from_slice(&buffered[..passed.bytes]) {
            Ok(()) => Ok(passed.bytes),
            Err(_) => Err(Error::Exit(Exit::Memory)),
        }
    } else {
        Ok(passed.bytes)
    }
}

/// Consumes the current bytes to their end, or until enough output is collected.
fn gather<W: Work>(
    alloc: Global,
    work: &mut W,
    buffered: &[u8],
    text: &mut MemorySink,
) -> Result<usize, Error>
    requires some { 0 < length buffered.now }
    requires reads { W.commands.Reads (W.act work.old) }
    requires has { (bytes : List ℕ) × (output : List Output) × W.has work.old bytes output
        × (length bytes + length buffered.now < 2 ^ 63) }
    requires none { text.old.bytes.items ≡ [] }
    ensures kept { W.act work.new ≡ W.act work.old }
    ensures gathers { Gathers W.commands (W.act work.old) (W.has work.old) (W.has work.new)
        buffered.now text.new.bytes.items result }
{
    let mut taken = gather_some(alloc, work, buffered, text)?;
    while taken < buffered.len() && text.bytes.len() <= GATHERED {
        taken += gather_some(alloc, work, &buffered[taken..], text)?;
    }
    Ok(taken)
}

/// Consumes some of the current bytes, and writes the output for the items that end in the consumed
/// bytes with one call. Returns the number of bytes consumed. If the run ends, memory runs out, or
/// writing fails, `feed_some` fails.
pub fn feed_some<W: Work, K: Sink>(
    alloc: Global,
    work: &mut W,
    buffered: &[u8],
    out: &mut K,
) -> Result<usize, Error>
    requires some { 0 < length buffered.now }
    requires reads { W.commands.Reads (W.act work.old) }
    requires has { (bytes : List ℕ) × (output : List Output) × W.has work.old bytes output
        × (length bytes + length buffered.now < 2 ^ 63) }
    ensures kept { W.act work.new ≡ W.act work.old }
    ensures feeds { FeedsSome W.commands (W.act work.old) (W.has work.old) (W.has work.new)
        buffered.now (change (K.state out.old) (K.state out.new)) result }
{
    let mut text = MemorySink {
        bytes: Vec::new(alloc),
    };
    let gathered = gather(alloc, work, buffered, &mut text);
    match write_all(out, text.bytes.as_slice()) {
        Ok(()) => gathered,
        Err(_) => Err(Error::WriteFault),
    }
}
