//! The lexical context of a byte in a text, and the byte's role for brackets.

ghost use Rattle.std.specs.Prelude.{◌≡◌};
ghost use Rattle.text_pretty.specs.BreakPoints.{bare_mark, mark_of, bare_break_point};
ghost use Rattle.text_pretty.specs.BreakPoints.{quoted_break_point, next_break_point};

/// The lexical context of a byte, as far as it determines the byte's role.
#[derive(Clone, Copy)]
pub enum BreakPoint {
    Outside,
    /// The byte follows a byte of a name.
    Name,
    /// The byte follows a `[`.
    Square,
    /// The byte follows a `:`.
    Colon,
    /// The byte is in a string.
    Text,
    /// The byte follows a backslash in a string.
    TextEscape,
    /// The byte is in a character.
    Letter,
    /// The byte follows a backslash in a character.
    LetterEscape,
}

/// The role of a byte for brackets.
#[derive(Clone, Copy)]
pub enum ByteRole {
    /// The byte opens a bracket.
    Opens,
    /// The byte opens the bracket around the first item and the remaining items of a list.
    OpensList,
    /// The byte separates two parts of a bracket.
    Parts,
    /// The byte closes a bracket.
    Closes,
    Other,
}

/// Returns the role of a byte outside of quotes, given the roles of a parenthesis and of a bar.
fn bare_mark(paren: ByteRole, bar: ByteRole, byte: u8) -> ByteRole
    ensures { result ≡ bare_mark paren bar byte }
{
    match byte {
        b'(' => paren,
        b'|' => bar,
        b'{' => ByteRole::Opens,
        b')' => ByteRole::Closes,
        b'}' => ByteRole::Closes,
        b',' => ByteRole::Parts,
        b';' => ByteRole::Parts,
        _ => ByteRole::Other,
    }
}

/// Returns the role of a byte in this context.
pub fn mark_of(break_point: BreakPoint, byte: u8) -> ByteRole
    ensures { result ≡ mark_of break_point byte }
{
    match break_point {
        BreakPoint::Outside => bare_mark(ByteRole::Opens, ByteRole::Closes, byte),
        BreakPoint::Name => bare_mark(ByteRole::Opens, ByteRole::Closes, byte),
        BreakPoint::Square => bare_mark(ByteRole::Opens, ByteRole::Opens, byte),
        BreakPoint::Colon => bare_mark(ByteRole::OpensList, ByteRole::Closes, byte),
        _ => ByteRole::Other,
    }
}

/// Returns the context after a byte outside of quotes, given the context after a quote.
fn bare_break_point(behind_quote: BreakPoint, byte: u8) -> BreakPoint
    ensures { result ≡ bare_break_point behind_quote byte }
{
    match byte {
        b'"' => BreakPoint::Text,
        b'\'' => behind_quote,
        b'[' => BreakPoint::Square,
        b':' => BreakPoint::Colon,
        _ => {
            if byte.is_ascii_alphanumeric() || byte == b'_' {
                BreakPoint::Name
            } else {
                BreakPoint::Outside
            }
        }
    }
}

/// Returns the context after a byte between quotes of this kind.
fn quoted_break_point(quote: u8, inside: BreakPoint, escape: BreakPoint, byte: u8) -> BreakPoint
    ensures { result ≡ quoted_break_point quote inside escape byte }
{
    if byte == quote {
        BreakPoint::Outside
    } else if byte == b'\\' {
        escape
    } else {
        inside
    }
}

/// Returns the context after a byte in this context.
pub fn next_break_point(break_point: BreakPoint, byte: u8) -> BreakPoint
    ensures { result ≡ next_break_point break_point byte }
{
    match break_point {
        BreakPoint::Text => quoted_break_point(
            b'"',
            BreakPoint::Text,
            BreakPoint::TextEscape,
            byte,
        ),
        BreakPoint::TextEscape => BreakPoint::Text,
        BreakPoint::Letter => quoted_break_point(
            b'\'',
            BreakPoint::Letter,
            BreakPoint::LetterEscape,
            byte,
        ),
        BreakPoint::LetterEscape => BreakPoint::Letter,
        BreakPoint::Name => bare_break_point(BreakPoint::Name, byte),
        _ => bare_break_point(BreakPoint::Letter, byte),
    }
}
