//! Lexes names, keywords, tags and type variables.

ghost use Rattle.std.specs.Prelude.{◌≡◌, ◌<◌, length, slice_index, IsTrue, Ok};
ghost use Rattle.std.specs.List.{take_while};
ghost use Rattle.types_lex.specs.Lexeme.{starts_name, is_name_byte};
ghost use Rattle.types_lex.specs.LexText.{Answers};
ghost use Rattle.types_lex.specs.Lexer.{keyword_of, cased_form, word_form, tag_form, variable_form};
ghost use Rattle.types_lex.specs.Lexer.{found, found_at};

use crate::character_classes::{name_len, starts_lower, starts_name};
use crate::found_lexeme::FoundLexeme;
use crate::lexeme::{Keyword, LexFault, LexemeKind};
use base_data::model::list::List;
use std::alloc::Global;

/// Returns the keyword with this text. If the text is no keyword, returns `None`.
pub fn keyword_of(name: &[u8]) -> Option<Keyword>
    ensures { result ≡ keyword_of name.now }
{
    if name == b"type".as_slice() {
        Some(Keyword::Type)
    } else if name == b"and".as_slice() {
        Some(Keyword::And)
    } else if name == b"of".as_slice() {
        Some(Keyword::Of)
    } else if name == b"mutable".as_slice() {
        Some(Keyword::Mutable)
    } else {
        None
    }
}

/// Copies the text into a list.
pub(crate) fn copied(alloc: Global, text: &[u8]) -> Result<List<u8>, LexFault>
    ensures { Answers (λ l. l) result (Ok text.now) }
{
    Ok(List::of(Vec::from_slice(alloc, text)?))
}

/// Returns the lexeme of a name that is not a keyword.
fn cased(alloc: Global, name: &[u8]) -> Result<FoundLexeme, LexFault>
    requires { 0 < length name.now }
    ensures { Answers (λ w. w) result (Ok (found (cased_form name.now))) }
{
    let lower = starts_lower(name[0]);
    let len = name.len();
    let name = copied(alloc, name)?;
    let kind = if lower {
        LexemeKind::Lower(name)
    } else {
        LexemeKind::Upper(name)
    };
    Ok(FoundLexeme { kind, len })
}

/// Lexes the name or keyword at the start of the text.
#[tactic(auto, unfolding(crate::specs::Lexer::word_form))]
pub fn word(alloc: Global, text: &[u8]) -> Result<FoundLexeme, LexFault>
    requires first { 0 < length text.now }
    requires name { IsTrue (starts_name (slice_index text.now 0)) }
    ensures { Answers (λ w. w) result (Ok (found (word_form (take_while is_name_byte text.now)))) }
{
    let len = name_len(text);
    let name = &text[..len];
    match keyword_of(name) {
        None => cased(alloc, name),
        Some(keyword) => Ok(FoundLexeme {
            kind: LexemeKind::Keyword(keyword),
            len,
        }),
    }
}

/// Lexes the variant tag whose backquote precedes the text.
#[tactic(auto, unfolding(crate::specs::Lexer::tag_form))]
pub fn tag(alloc: Global, text: &[u8]) -> Result<FoundLexeme, LexFault>
    ensures { Answers (λ w. w) result (found_at (tag_form text.now)) }
{
    let [first, ..] = text else {
        return Err(LexFault::BadByte(0));
    };
    if !starts_name(*first) {
        return Err(LexFault::BadByte(0));
    }
    let len = name_len(text);
    let name = copied(alloc, &text[..len])?;
    Ok(FoundLexeme {
        kind: LexemeKind::Tag(name),
        len: len + 1,
    })
}

/// Lexes the type variable whose quote precedes the text.
#[tactic(auto, unfolding(crate::specs::Lexer::variable_form))]
pub fn variable(alloc: Global, text: &[u8]) -> Result<FoundLexeme, LexFault>
    ensures { Answers (λ w. w) result (found_at (variable_form text.now)) }
{
    let [first, ..] = text else {
        return Err(LexFault::BadByte(0));
    };
    if !starts_lower(*first) {
        return Err(LexFault::BadByte(0));
    }
    let len = name_len(text);
    let name = copied(alloc, &text[..len])?;
    Ok(FoundLexeme {
        kind: LexemeKind::Variable(name),
        len: len + 1,
    })
}
