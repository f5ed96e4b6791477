//! Finds the end of a comment.

ghost use Rattle.std.specs.Prelude.{◌≡◌, ◌≤◌, length, IfSome};
ghost use Rattle.types_lex.specs.Lexer.{bracket_of, closing};

/// What two bytes mean in a comment: the beginning of a comment, the end of a comment, or neither.
#[derive(Clone, Copy)]
enum CommentDelimiter {
    Opening,
    Closing,
    Neither,
}

/// Returns whether two bytes begin a comment, end a comment, or do neither.
fn bracket_of(first: u8, second: u8) -> CommentDelimiter
    ensures { result ≡ bracket_of first second }
{
    if first == b'(' && second == b'*' {
        CommentDelimiter::Opening
    } else if first == b'*' && second == b')' {
        CommentDelimiter::Closing
    } else {
        CommentDelimiter::Neither
    }
}

/// Returns the number of bytes up to the end of the comment whose first two bytes precede the text.
/// If the comment does not end, returns `None`. Comments nest. Strings inside comments are not
/// recognized.
pub fn closing(text: &[u8]) -> Option<usize>
    ensures value { result ≡ closing 0 text.now }
    ensures within { IfSome result (λ len. len ≤ length text.now) }
{
    let mut depth: usize = 0;
    let mut at: usize = 0;
    while text.len() - at > 1 {
        match bracket_of(text[at], text[at + 1]) {
            CommentDelimiter::Opening => {
                depth += 1;
                at += 2;
            }
            CommentDelimiter::Closing => {
                if depth == 0 {
                    return Some(at + 2);
                }
                depth -= 1;
                at += 2;
            }
            CommentDelimiter::Neither => at += 1,
        }
    }
    None
}
