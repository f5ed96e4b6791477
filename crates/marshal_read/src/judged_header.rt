//! Checks a header, whose format is in `intext.h`.

ghost use Rattle.std.specs.Prelude.{◌≤◌, IfOk};
ghost use Rattle.marshal_read.specs.JudgedHeader.{JudgedHeader, Begins};

use crate::read_totals::ReadTotals;
use crate::unread::Unread;
use base_data::model::header::Head;
use base_data::model::refusal::{ReadRefusal, StatedNumber};
use marshal_codec::headers::{HeadFault, HeaderStep, parse};

/// The maximum length in bytes of a value's data.
const LENGTH_LIMIT: u64 = (1 << 48) - 1;

/// Checks the header on all available bytes. Returns the totals after the header if the header is
/// complete and passes. Fails with `NeedMore` if the header is incomplete, and with `Refused` if a
/// step fails. `limit` is the maximum number of 64-bit words.
pub fn judge_header(bytes: &[u8], limit: u64) -> Result<ReadTotals, Unread>
    ensures judged { JudgedHeader limit bytes.now result }
    ensures limited { IfOk result (λ position. position.head.w64 ≤ limit) }
{
    match parse(bytes) {
        Err(HeadFault::BadMagic(magic)) => Err(Unread::Refused(ReadRefusal::BadMagic(magic))),
        Err(HeadFault::Compressed) => Err(Unread::Refused(ReadRefusal::Compressed)),
        Ok(HeaderStep::More(_)) => Err(Unread::NeedMore),
        Ok(HeaderStep::Head(head)) => begin(head, limit),
    }
}

/// Checks that the header states at least one byte of data and no more words and bytes than the
/// limits. Returns the totals after the header.
fn begin(head: Head, limit: u64) -> Result<ReadTotals, Unread>
    ensures begins { Begins limit head result }
    ensures limited { IfOk result (λ position. position.head.w64 ≤ limit) }
{
    let start = if head.big { 32 } else { 20 };
    if limit < head.w64 {
        return Err(Unread::Refused(ReadRefusal::TooLarge(StatedNumber::Words, head.w64, limit)));
    }
    if LENGTH_LIMIT < head.length {
        return Err(Unread::Refused(ReadRefusal::TooLarge(
            StatedNumber::Length,
            head.length,
            LENGTH_LIMIT,
        )));
    }
    if head.length == 0 {
        return Err(Unread::Refused(ReadRefusal::Overlong(start, 1, 0)));
    }
    Ok(ReadTotals {
        head,
        start,
        taken: 0,
        objects: 0,
        pending: 1,
        w32: 0,
        w64: 0,
    })
}
