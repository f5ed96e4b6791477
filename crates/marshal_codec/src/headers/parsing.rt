//! Decodes the header at the beginning of a value.

ghost use Rattle.std.specs.Prelude.{◌≡◌, ◌≤◌, length, MatchResult};
ghost use Rattle.marshal_spec.specs.format.Header.{small_head, big_head};
ghost use Rattle.marshal_codec.specs.headers.Parsing.{header_step, IsStep, IsFault};

use crate::headers::magic::{BIG_MAGIC, COMPRESSED_MAGIC, SMALL_MAGIC};
use base_data::model::bytes::big_endian;
use base_data::model::header::Head;

/// The result of decoding the first bytes of a value: the header, or the number of missing bytes.
#[derive(Clone, Copy)]
pub enum HeaderStep {
    /// The number of bytes that are missing. The missing bytes end with the magic number if the
    /// magic number is incomplete, and otherwise with the header.
    More(usize),
    /// The header is complete.
    Head(Head),
}

/// The reason why the first four bytes begin no header.
#[derive(Clone, Copy)]
pub enum HeadFault {
    /// The four bytes, which are no magic number.
    BadMagic(u32),
    /// The magic number of compressed data.
    Compressed,
}

/// Decodes the header at the beginning of `bytes` (`intern.c`). Bytes may follow the header. The
/// magic number is checked as soon as its four bytes are complete.
#[tactic(auto, unfolding(marshal_spec::specs::format::Header::head_of))]
#[inline(always)]
pub fn parse(bytes: &[u8]) -> Result<HeaderStep, HeadFault>
    ensures step { result ≡ header_step bytes.now }
    ensures says { MatchResult result (IsStep bytes.now) (IsFault bytes.now) }
{
    if bytes.len() < 4 {
        return Ok(HeaderStep::More(4 - bytes.len()));
    }
    match big_endian(&bytes[..4]) as u32 {
        SMALL_MAGIC if bytes.len() < 20 => Ok(HeaderStep::More(20 - bytes.len())),
        SMALL_MAGIC => Ok(HeaderStep::Head(small_header(bytes))),
        BIG_MAGIC if bytes.len() < 32 => Ok(HeaderStep::More(32 - bytes.len())),
        BIG_MAGIC => Ok(HeaderStep::Head(big_header(bytes))),
        COMPRESSED_MAGIC => Err(HeadFault::Compressed),
        magic => Err(HeadFault::BadMagic(magic)),
    }
}

// Decodes a small header, whose numbers have four bytes each.
fn small_header(bytes: &[u8]) -> Head
    requires { 20 ≤ length bytes.now }
    ensures { result ≡ small_head bytes.now }
{
    Head {
        big: false,
        length: big_endian(&bytes[4..8]),
        objects: big_endian(&bytes[8..12]),
        w32: big_endian(&bytes[12..16]),
        w64: big_endian(&bytes[16..20]),
    }
}

// Decodes a big header, whose numbers have eight bytes each. The four bytes before the numbers are
// ignored.
fn big_header(bytes: &[u8]) -> Head
    requires { 32 ≤ length bytes.now }
    ensures { result ≡ big_head bytes.now }
{
    Head {
        big: true,
        length: big_endian(&bytes[8..16]),
        objects: big_endian(&bytes[16..24]),
        w32: 0,
        w64: big_endian(&bytes[24..32]),
    }
}
