//! The data length that a header states.

ghost use Rattle.std.specs.Prelude.{ℕ, ◌≡◌, IsTrue, if◌then◌else◌};
ghost use Rattle.cmd_scan.specs.found_positions.InputParts.{BeginNoValue};

use marshal_codec::headers::{Head, HeaderStep, parse};

// Returns the length of a header in bytes.
fn length_of(head: Head) -> u64
    ensures { result ≡ (if head.big then 32 else 20) }
{
    if head.big { 32 } else { 20 }
}

/// Returns true if the bytes begin with a header that states more data than the bytes contain. If
/// the result is true, then the bytes do not begin with a complete value.
pub fn claims_more(bytes: &[u8]) -> bool
    ensures { IsTrue result → (limit : ℕ) → BeginNoValue limit bytes.now }
{
    match parse(bytes) {
        Ok(HeaderStep::Head(head)) => head.length > bytes.len() as u64 - length_of(head),
        _ => false,
    }
}
