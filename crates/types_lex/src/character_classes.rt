//! Character classes of bytes.

ghost use Rattle.std.specs.Prelude.{◌≡◌, ◌<◌, IsTrue};
ghost use Rattle.std.specs.Char.{is_ascii_hexdigit};
ghost use Rattle.std.specs.List.{prefix_len};
ghost use Rattle.types_lex.specs.Lexeme.{is_separator, starts_lower, starts_name, is_name_byte};
ghost use Rattle.types_lex.specs.Lexeme.{value_of_digit, is_plain};

/// Returns true for a space, tab, line feed, form feed or carriage return: the blanks of OCaml's
/// reference manual.
#[inline(always)]
pub fn is_separator(b: u8) -> bool
    ensures { result ≡ is_separator b }
{
    b == b' ' || b == b'\t' || b == b'\n' || b == 0x0c || b == b'\r'
}

/// Returns true if a lowercase name may begin with this byte.
#[inline(always)]
pub fn starts_lower(b: u8) -> bool
    ensures { result ≡ starts_lower b }
{
    b.is_ascii_lowercase() || b == b'_'
}

/// Returns true if a name may begin with this byte.
#[inline(always)]
pub fn starts_name(b: u8) -> bool
    ensures { result ≡ starts_name b }
{
    starts_lower(b) || b.is_ascii_uppercase()
}

/// Returns true if a name may contain this byte after the first byte.
#[inline(always)]
pub fn is_name_byte(b: u8) -> bool
    ensures { result ≡ is_name_byte b }
{
    b.is_ascii_alphanumeric() || b == b'_' || b == b'\''
}

/// Returns the number of leading bytes of the text that may occur in a name.
pub fn name_len(text: &[u8]) -> usize
    ensures { result ≡ prefix_len is_name_byte text.now }
{
    text.iter().take_while(|b| is_name_byte(**b)).count()
}

/// Returns true if this byte represents itself in a string: the byte needs no escape and does not
/// end the string.
fn is_plain(b: u8) -> bool
    ensures { result ≡ is_plain b }
{
    if b == b'"' || b == b'\\' || b == b'\n' {
        false
    } else {
        true
    }
}

/// Returns the number of leading bytes of the text that represent themselves in a string.
pub fn plain_len(text: &[u8]) -> usize
    ensures { result ≡ prefix_len is_plain text.now }
{
    text.iter().take_while(|b| is_plain(**b)).count()
}

/// Returns the value of a hexadecimal digit in lower or upper case.
pub fn digit_value(b: u8) -> u8
    requires { IsTrue (is_ascii_hexdigit b) }
    ensures value { result ≡ value_of_digit b }
    ensures small { result < 16 }
{
    if b < b':' {
        b - b'0'
    } else if b < b'G' {
        b - b'A' + 10
    } else {
        b - b'a' + 10
    }
}
