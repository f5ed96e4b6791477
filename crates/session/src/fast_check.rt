//! Fast paths by the streaming check, which reads a value's bytes without building a heap. The
//! streaming check reports the verdict on a value. The streaming check also recognizes a value that
//! has its type and whose bytes are exactly the bytes that the runtime writes for the value.

ghost use Rattle.std.specs.Bool.{OnTrue};
ghost use Rattle.std.specs.Prelude.{◌≡◌, ◌≤◌, ◌<◌, ℕ, List, [], length, take, IfOk, OnOk};
ghost use Rattle.check_stream.specs.chunk_check.StreamCheck.{IsStreamCheck};
ghost use Rattle.types_table.specs.type_table.Made.{table_of};
ghost use Rattle.check_stream.specs.mismatch_search.Find.{IsFound};
ghost use Rattle.session.specs.FastCheck.{IsFastCheck, IsUnchangedFastCheck, IsVerdictOn, no_in};
ghost use Rattle.marshal_write.specs.canonical_check.Canonicity.{IsCanonicalBytes};

use base_data::model::Memory;
use check_stream::chunk_check::{ChunkResult, StreamCheck};
use check_stream::mismatch_search::FoundMismatch;
use marshal_write::canonical_check::is_canonical_bytes;
use run_types::{Requested, write_missed_no};
use std::alloc::Global;
use types_theory::table::tables_decide;

/// The number of useless streaming checks in a row after which most values are read without a
/// streaming check.
const USELESS: u8 = 8;

/// The number of values that are read without a streaming check between two values that are
/// checked, after `USELESS` useless streaming checks.
const SKIPPED: u8 = 64;

/// The number of useless streaming checks in a row, and the number of values still to be read
/// without a streaming check. `mismatched` is true if the streaming check of the current value was
/// inconclusive after it found a type mismatch.
#[derive(Clone, Copy)]
pub struct CheckBackoff {
    pub mismatched: bool,
    useless: u8,
    skipped: u8,
}

impl CheckBackoff {
    /// Creates the initial counters, by which the first values are checked.
    pub fn new() -> CheckBackoff {
        CheckBackoff {
            mismatched: false,
            useless: 0,
            skipped: 0,
        }
    }

    /// Returns true if the next value should be checked. If the next value should not be checked,
    /// counts the value as skipped.
    pub fn is_due(&mut self) -> bool {
        self.mismatched = false;
        if self.skipped == 0 {
            return true;
        }
        self.skipped -= 1;
        false
    }

    /// Counts a useful streaming check.
    pub fn count_useful(&mut self) {
        self.useless = 0;
    }

    /// Counts a useless streaming check.
    pub fn count_useless(&mut self) {
        if self.useless < USELESS {
            self.useless += 1;
        }
        if self.useless == USELESS {
            self.skipped = SKIPPED;
        }
    }
}

/// The result of a streaming check of the current value.
#[derive(Clone, Copy)]
pub enum FastResult {
    /// The first bytes of the chunk complete the value, and the value's verdict is `yes`. The
    /// number is the number of these bytes.
    Yes(usize),
    /// The first bytes of the chunk complete the value, the value's verdict is `no`, and the line
    /// is in the line buffer. The number is the number of these bytes.
    No(usize),
    /// All bytes of the chunk were taken, and the value needs more bytes.
    More,
    /// The check is inconclusive, and no byte of the chunk was taken.
    Inconclusive,
}

/// Replaces `line` by the line of a value with exactly one type mismatch.
#[inline(never)]
fn write_missed_line(
    line: &mut Vec<u8>,
    alloc: Global,
    requested: &Requested,
    found: &FoundMismatch,
) -> Result<(), Memory>
    requires number { found.now.ty < length requested.now.table.nodes }
    ensures { OnOk result ((limit n : ℕ) (bytes : List ℕ)
        → IsFound (table_of requested.now.table) limit n bytes found.now
        → IsVerdictOn requested.now limit n bytes (no_in line.new.items)) }
{
    line.clear();
    write_missed_no(line, alloc, requested, found)?;
    Ok(line.push(b'\n')?)
}

/// Continues the streaming check of the current value with a chunk. Returns the verdict, or that
/// more bytes are needed, or that the check is inconclusive. If the verdict is `no`, replaces
/// `line` by the line of the value.
#[inline(always)]
pub fn fast_check<'a>(
    alloc: Global,
    requested: &'a Requested,
    limit: u64,
    stream_check: &mut StreamCheck<'a>,
    chunk: &[u8],
    line: &mut Vec<u8>,
) -> Result<FastResult, Memory>
    requires stream_check { IsStreamCheck (table_of requested.now.table) limit stream_check.old }
    ensures { IfOk result (IsFastCheck requested.now limit stream_check.old chunk.now
        stream_check.new line.new.items) }
{
    requested.holds();
    tables_decide();
    let answer = stream_check.feed(alloc, requested.table(), limit, chunk)?;
    match answer {
        ChunkResult::Typed(n) => Ok(FastResult::Yes(n)),
        ChunkResult::Missed(n) => {
            let Some(found) = stream_check.missed() else {
                unreachable!()
            };
            write_missed_line(line, alloc, requested, found)?;
            Ok(FastResult::No(n))
        }
        ChunkResult::More => Ok(FastResult::More),
        ChunkResult::Inconclusive => Ok(FastResult::Inconclusive),
    }
}

/// Returns true only if the first `n` bytes are exactly the bytes that the runtime writes for the
/// value that the `n` bytes encode.
fn is_canonical_prefix(bytes: &[u8], n: usize) -> bool
    requires { n ≤ length bytes.now }
    ensures { OnTrue result (IsCanonicalBytes (take n bytes.now)) }
{
    is_canonical_bytes(&bytes[..n])
}

/// The result of a streaming check of a value that could be written unchanged.
#[derive(Clone, Copy)]
pub enum Unchanged {
    /// The first bytes of the chunk are a value that has the type, and exactly the bytes that the
    /// runtime writes for the value. The number is the number of these bytes.
    Whole(usize),
    /// All bytes of the chunk were taken, and the value needs more bytes.
    More,
    /// The check is inconclusive, and no byte of the chunk was taken.
    Inconclusive,
}

/// Checks a value that begins with a chunk. Reports whether the value lies completely in the chunk,
/// has the type, and consists of exactly the bytes that the runtime writes for the value.
pub fn fast_check_unchanged<'a>(
    alloc: Global,
    requested: &'a Requested,
    limit: u64,
    stream_check: &mut StreamCheck<'a>,
    chunk: &[u8],
) -> Result<Unchanged, Memory>
    requires stream_check { IsStreamCheck (table_of requested.now.table) limit stream_check.old }
    requires none { stream_check.old.kept.items ≡ [] }
    ensures { IfOk result (IsUnchangedFastCheck requested.now limit chunk.now stream_check.new) }
{
    requested.holds();
    tables_decide();
    let answer = stream_check.feed(alloc, requested.table(), limit, chunk)?;
    match answer {
        ChunkResult::Typed(n) => {
            if is_canonical_prefix(chunk, n) {
                Ok(Unchanged::Whole(n))
            } else {
                Ok(Unchanged::Inconclusive)
            }
        }
        ChunkResult::Missed(_) => Ok(Unchanged::Inconclusive),
        ChunkResult::More => Ok(Unchanged::More),
        ChunkResult::Inconclusive => Ok(Unchanged::Inconclusive),
    }
}
