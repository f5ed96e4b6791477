//! Decodes numbers from bytes, as `intern.c` reads them.

ghost use Rattle.std.specs.Prelude.{◌≡◌, ◌≤◌, drop, length};
ghost use Rattle.base_data.specs.model.Bytes.{number, little_number, number_in};
ghost use Rattle.base_data.specs.model.Bytes.{signed as signed_number};

/// Returns the number that at most eight bytes encode, with the most significant byte first
/// (`intern.c`).
pub fn big_endian(bytes: &[u8]) -> u64
    requires { length bytes.now ≤ 8 }
    ensures { result ≡ number bytes.now }
{
    let mut value = 0;
    for byte in bytes {
        value = value * 256 + u64::from(*byte);
    }
    value
}

/// Returns the number that at most eight bytes encode, with the least significant byte first
/// (`intern.c`).
pub fn little_endian(bytes: &[u8]) -> u64
    requires { length bytes.now ≤ 8 }
    ensures { result ≡ little_number bytes.now }
{
    let mut value = 0;
    for i in (0..bytes.len()).rev() {
        value = value * 256 + u64::from(bytes[i]);
    }
    value
}

/// Returns the integer that one to eight bytes encode in two's complement, with the most
/// significant byte first (`intern.c`).
pub fn signed(bytes: &[u8]) -> i64
    requires some { 1 ≤ length bytes.now }
    requires few { length bytes.now ≤ 8 }
    ensures { result ≡ signed_number bytes.now }
{
    let value = big_endian(bytes);
    let half = 1u64 << (8 * bytes.len() - 1);
    if value < half {
        value as i64
    } else {
        -1 - (half - 1 - (value - half)) as i64
    }
}

/// Returns the bits of a double from its eight bytes. `little` selects the byte order (`intern.c`).
pub fn double(bytes: &[u8], little: bool) -> u64
    requires { length bytes.now ≡ 8 }
    ensures { result ≡ number_in little bytes.now }
{
    if little {
        little_endian(bytes)
    } else {
        big_endian(bytes)
    }
}

/// Returns the bytes after the first `n`. If there are at most `n` bytes, returns the empty slice.
pub fn skip(bytes: &[u8], n: usize) -> &[u8]
    ensures { result.now ≡ drop n bytes.now }
{
    if n < bytes.len() {
        &bytes[n..]
    } else {
        &bytes[bytes.len()..]
    }
}
