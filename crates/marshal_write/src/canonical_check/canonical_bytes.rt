//! Checks whether the bytes of a whole value are canonical.

ghost use Rattle.std.specs.Prelude.{◌≡◌, length, IfSome};
ghost use Rattle.std.specs.Bool.{OnTrue};
ghost use Rattle.marshal_write.specs.canonical_check.Canonicity.{IsCanonicalBytes, IsOwnHeader};

use crate::canonical_check::canonical_tokens::{are_bare, are_canonical};
use marshal_codec::headers::{HeaderStep, parse};

/// Returns the number of objects that a small header states, if the header is encoded as the
/// runtime encodes it.
fn objects_in(header: &[u8]) -> Option<u64>
    requires { length header.now ≡ 20 }
    ensures { IfSome result (λ objects. IsOwnHeader header.now objects) }
{
    let Ok(HeaderStep::Head(head)) = parse(header) else {
        return None;
    };
    let most = 1 << 32;
    if head.big
        || head.length >= most
        || head.objects >= most
        || head.w32 >= most
        || head.w64 >= most
    {
        return None;
    }
    Some(head.objects)
}

/// Returns true if the bytes of a value are the bytes that the runtime writes for the value
/// (`extern.c`). The answer false is inconclusive.
pub fn is_canonical_bytes(bytes: &[u8]) -> bool
    ensures { OnTrue result (IsCanonicalBytes bytes.now) }
{
    if bytes.len() < 20 {
        return false;
    }
    let Some(objects) = objects_in(&bytes[..20]) else {
        return false;
    };
    let data = &bytes[20..];
    if objects == 0 {
        return are_bare(data);
    }
    are_canonical(data)
}
