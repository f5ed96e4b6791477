//! Numbers in a certificate.

ghost use Rattle.std.specs.Prelude.{IfSome, MatchOption};
ghost use Rattle.cert_format.specs.CertificateNumbers.{IsNumberText, IsNoNumberText};
ghost use Rattle.cert_format.specs.CertificateNumbers.{BeginsWithNumber};

/// Parses a number below 2^63 in decimal digits without leading zeros. Returns `None` if the bytes
/// have another form.
pub fn number_of(digits: &[u8]) -> Option<u64>
    ensures { MatchOption result (IsNoNumberText digits.now) (IsNumberText digits.now) }
{
    if digits.is_empty() || digits.len() > 19 {
        return None;
    }
    if digits[0] == b'0' && digits.len() > 1 {
        return None;
    }
    let mut n = 0;
    for i in 0..digits.len() {
        if !digits[i].is_ascii_digit() {
            return None;
        }
        n = 10 * n + u64::from(digits[i] - b'0');
    }
    if n < 1 << 63 { Some(n) } else { None }
}

/// Fast path: parses a number of at most 18 digits at the start of the text. Returns the number and
/// the text after the number. May return `None` for a longer number.
#[inline(always)]
pub fn first_number(text: &[u8]) -> Option<(u64, &[u8])>
    ensures { IfSome result (λ p. BeginsWithNumber text.now p.0 p.1.now) }
{
    let mut n = 0;
    let mut i = 0;
    while i < text.len() && i < 18 && text[i].is_ascii_digit() {
        n = 10 * n + u64::from(text[i] - b'0');
        i += 1;
    }
    if i == 0 {
        return None;
    }
    if text[0] == b'0' && i > 1 {
        return None;
    }
    Some((n, &text[i..]))
}
