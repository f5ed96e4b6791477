//! Lexes integers and doubles.

ghost use Rattle.std.specs.Prelude.{◌≡◌, ◌-◌, ◌^◌, min, length, Some, None, IsTrue, if◌then◌else◌};
ghost use Rattle.std.specs.Prelude.{nat_le};
ghost use Rattle.std.specs.Char.{is_ascii_digit, is_ascii_hexdigit};
ghost use Rattle.std.specs.List.{prefix_len, list_all};
ghost use Rattle.types_lex.specs.Lexeme.{number_in, signed, greatest, suffix_text};
ghost use Rattle.types_lex.specs.LexText.{Answers};
ghost use Rattle.types_lex.specs.Lexer.{suffix_at, number_form, double_form, found_at};

use crate::character_classes::digit_value;
use crate::found_lexeme::FoundLexeme;
use crate::lexeme::{Integer, LexFault, LexemeKind, Suffix};

/// Returns the number of leading decimal digits of the text.
#[inline(always)]
fn digits_len(text: &[u8]) -> usize
    ensures { result ≡ prefix_len is_ascii_digit text.now }
{
    text.iter().take_while(|b| b.is_ascii_digit()).count()
}

/// Returns true if all bytes are hexadecimal digits.
fn all_hexadecimal(bytes: &[u8]) -> bool
    ensures { result ≡ list_all is_ascii_hexdigit bytes.now }
{
    bytes.iter().all(|b| b.is_ascii_hexdigit())
}

/// Returns the number that the digits represent in this base. If the number exceeds 2^64 - 1,
/// returns 2^64 - 1.
#[inline(always)]
fn number_in(base: u64, digits: &[u8]) -> u64
    requires { IsTrue (list_all is_ascii_hexdigit digits.now) }
    ensures { result ≡ min (number_in base digits.now) (2 ^ 64 - 1) }
{
    let mut number: u64 = 0;
    for digit in digits {
        number = number
            .saturating_mul(base)
            .saturating_add(u64::from(digit_value(*digit)));
    }
    number
}

/// Returns the number with its sign. If the signed number does not fit in 64 bits, returns `None`.
#[inline(always)]
fn signed(minus: bool, number: u64) -> Option<i64>
    ensures { result
        ≡ (if nat_le number (greatest minus) then Some (signed minus number) else None) }
{
    if !minus {
        if number > i64::MAX as u64 {
            None
        } else {
            Some(number as i64)
        }
    } else if number == 0 {
        Some(0)
    } else if number > 1 << 63 {
        None
    } else {
        Some(-((number - 1) as i64) - 1)
    }
}

/// Returns the suffix of an integer at the start of the text, and the length of the suffix in
/// bytes.
#[tactic(auto, unfolding(crate::specs::Lexer::suffix_at))]
#[inline(always)]
fn suffix_at(text: &[u8]) -> (Suffix, usize)
    ensures suffix { result.0 ≡ suffix_at text.now }
    ensures len { result.1 ≡ length (suffix_text (suffix_at text.now)) }
{
    match text {
        [b'l', ..] => (Suffix::Int32, 1),
        [b'L', ..] => (Suffix::Int64, 1),
        [b'n', ..] => (Suffix::Native, 1),
        _ => (Suffix::Absent, 0),
    }
}

/// Lexes the integer whose digits begin the text. If `minus` is true, then a minus sign precedes
/// the text.
#[tactic(auto, unfolding(crate::specs::Lexer::number_form))]
#[inline(always)]
pub fn integer(minus: bool, text: &[u8]) -> Result<FoundLexeme, LexFault>
    ensures { Answers (λ w. w) result (found_at (number_form minus text.now)) }
{
    let count = digits_len(text);
    if count == 0 {
        return Err(LexFault::BadByte(0));
    }
    let (digits, rest) = text.split_at(count);
    let (suffix, suffix_len) = suffix_at(rest);
    let len = usize::from(minus) + count + suffix_len;
    match signed(minus, number_in(10, digits)) {
        None => Err(LexFault::TooBig(0)),
        Some(value) => Ok(FoundLexeme {
            kind: LexemeKind::Integer(Integer {
                minus,
                value,
                suffix,
            }),
            len,
        }),
    }
}

/// Lexes the double whose `$` precedes the text: sixteen hexadecimal digits.
#[tactic(auto, unfolding(crate::specs::Lexer::double_form))]
pub fn double(text: &[u8]) -> Result<FoundLexeme, LexFault>
    ensures { Answers (λ w. w) result (found_at (double_form text.now)) }
{
    if text.len() < 16 {
        return Err(LexFault::BadByte(0));
    }
    let digits = &text[..16];
    if !all_hexadecimal(digits) {
        return Err(LexFault::BadByte(0));
    }
    Ok(FoundLexeme {
        kind: LexemeKind::Double(number_in(16, digits)),
        len: 17,
    })
}
