//! Fast path for consecutive pair lines, which parses them without splitting the text into lines
//! first.

ghost use Rattle.std.specs.Prelude.{All, IfOk, IfSome};
ghost use Rattle.cert_format.specs.CertificateReading.{AreNumbers};
ghost use Rattle.cert_format.specs.PairRuns.{IsFirstPair, HasMorePairs, IsStem};

use crate::certificate_number::first_number;
use crate::cuts::after;
use crate::section::CertificatePairs;
use crate::stems::{first_agree, first_end, stem_of};
use base_data::model::Memory;

/// Parses a pair line at the start of the bytes. Returns the pair, the text after the line, and the
/// stem for lines with a similar object. If the result is `None`, the bytes may still begin with a
/// pair line.
#[inline(always)]
fn first_pair<'a>(
    text: &'a [u8],
    stem: &'a [u8],
    tens: u64,
) -> Option<((u64, u64), &'a [u8], &'a [u8], u64)>
    requires { IsStem stem.now tens }
    ensures { IfSome result
        (λ p. IsFirstPair text.now p.0 p.1.now × IsStem p.2.now p.3) }
{
    if let Some((pair, rest)) = first_agree(text, stem, tens) {
        return Some((pair, rest, stem, tens));
    }
    let numbers = after(text, b"pair ")?;
    let (object, space) = first_number(numbers)?;
    let (ty, rest) = first_end(after(space, b" ")?)?;
    let (like, at) = stem_of(text, object, space, stem, tens);
    Some(((object, ty), rest, like, at))
}

/// Parses pair lines at the start of the bytes, as long as the pairs increase, and appends the
/// pairs. Returns the pairs, the number of parsed lines and the number of parsed bytes.
pub fn with_pairs(
    pairs: CertificatePairs,
    text: &[u8],
) -> Result<(CertificatePairs, usize, usize), Memory>
    requires { All AreNumbers pairs }
    ensures { IfOk result (λ run. HasMorePairs pairs text.now run.0 run.1 run.2) }
{
    let mut longer = pairs;
    let mut lines = 0;
    let mut rest = text;
    let mut stem = b"pair 1000".as_slice();
    let mut tens = 10_000;
    while let Some((pair, behind, like, at)) = first_pair(rest, stem, tens) {
        if !longer.is_above(pair.0, pair.1) {
            return Ok((longer, lines, text.len() - rest.len()));
        }
        longer.push(pair.0, pair.1)?;
        lines += 1;
        rest = behind;
        stem = like;
        tens = at;
    }
    Ok((longer, lines, text.len() - rest.len()))
}
