//! Splitting of bytes at a delimiter or after a prefix.

ghost use Rattle.std.specs.Prelude.{ℕ, ◌≡◌, ◌≢◌, ◌<◌, ◌≤◌, ◌++◌, List, MatchOption, length};
ghost use Rattle.std.specs.Prelude.{slice_index};
ghost use Rattle.cert_format.specs.CertificateReading.{IsCut};

/// Splits the bytes before the first occurrence of `at`. If `at` does not occur, the second part is
/// empty.
pub fn until(bytes: &[u8], at: u8) -> (&[u8], &[u8])
    ensures { IsCut bytes.now at result.0.now result.1.now }
{
    let position = position_of(bytes, at);
    (&bytes[..position], &bytes[position..])
}

// Returns the position of the first occurrence of `at`, or the length of the bytes if `at` does not
// occur.
fn position_of(bytes: &[u8], at: u8) -> usize
    ensures within { result ≤ length bytes.now }
    ensures before { (k : ℕ) → k < result → slice_index bytes.now k ≢ at }
    ensures found { result < length bytes.now → slice_index bytes.now result ≡ at }
{
    for i in 0..bytes.len() {
        if bytes[i] == at {
            return i;
        }
    }
    bytes.len()
}

/// Returns the bytes after this prefix, or `None` if the bytes do not begin with this prefix.
#[inline(always)]
pub fn after<'a>(bytes: &'a [u8], prefix: &[u8]) -> Option<&'a [u8]>
    ensures { MatchOption result ((rest : List ℕ) → bytes.now ≢ prefix.now ++ rest)
        (λ rest. bytes.now ≡ prefix.now ++ rest.now) }
{
    if bytes.starts_with(prefix) {
        Some(&bytes[prefix.len()..])
    } else {
        None
    }
}
