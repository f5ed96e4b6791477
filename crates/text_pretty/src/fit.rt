//! Whether the remaining bytes of a bracket fit the current line.

ghost use Rattle.std.specs.Prelude.{◌≡◌, ◌+◌, ◌<◌, ◌^◌};
ghost use Rattle.text_pretty.specs.Fit.{closing_length, depth_after, to_close, at_most, within};

use crate::break_point::{BreakPoint, ByteRole, mark_of, next_break_point};

/// Returns the length in bytes of a closing bracket that begins with this byte.
pub fn closing_length(byte: u8) -> usize
    ensures { result ≡ closing_length byte }
{
    if byte == b'|' { 2 } else { 1 }
}

/// Returns the number of open inner brackets after a byte, given the number before it. Returns
/// `None` if the byte closes the outer bracket.
fn depth_after(mark: ByteRole, depth: usize) -> Option<usize>
    requires { depth + 1 < 2 ^ 64 }
    ensures { result ≡ depth_after mark depth }
{
    match mark {
        ByteRole::Opens => Some(depth + 1),
        ByteRole::OpensList => Some(depth + 1),
        ByteRole::Closes => { if depth == 0 { None } else { Some(depth - 1) } }
        _ => Some(depth),
    }
}

/// Returns `n` if it is at most `left`, otherwise 0.
fn at_most(left: usize, n: usize) -> usize
    ensures { result ≡ at_most left n }
{
    if n <= left { n } else { 0 }
}

/// Returns the number of bytes to the end of the innermost bracket, with its closing bracket, if
/// the number is at most `left`. Otherwise returns 0.
pub fn bytes_to_close(left: usize, break_point: BreakPoint, bytes: &[u8]) -> usize
    ensures { result ≡ within left (to_close break_point 0 bytes.now) }
{
    let mut here = break_point;
    let mut depth = 0;
    for i in 0..left {
        if i >= bytes.len() {
            return 0;
        }
        let byte = bytes[i];
        let Some(deeper) = depth_after(mark_of(here, byte), depth) else {
            return at_most(left, i + closing_length(byte));
        };
        depth = deeper;
        here = next_break_point(here, byte);
    }
    0
}
