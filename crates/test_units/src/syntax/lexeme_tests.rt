//! Tests of the lexemes of texts, and of the first lexical errors of other texts.

use base_data::model::Memory;
use std::alloc::{AllocError, Global};
use std::test::Fail;
use types_lex::lexeme::{Integer, Keyword, LexFault, Lexeme, LexemeKind, Suffix, Symbol};
use types_lex::{next_lexeme, tokens};

// Appends a word and bytes.
fn write_named(text: &mut String, word: &str, bytes: &[u8]) -> Result<(), AllocError> {
    text.push_str(word)?;
    text.push(' ')?;
    for byte in bytes {
        text.push(char::from(*byte))?;
    }
    Ok(())
}

fn keyword_text(keyword: Keyword) -> &'static str {
    match keyword {
        Keyword::Type => "Type",
        Keyword::And => "And",
        Keyword::Of => "Of",
        Keyword::Mutable => "Mutable",
    }
}

fn symbol_text(symbol: Symbol) -> &'static str {
    match symbol {
        Symbol::OpenArray => "OpenArray",
        Symbol::CloseArray => "CloseArray",
        Symbol::DoubleSemicolon => "DoubleSemicolon",
        Symbol::DoubleColon => "DoubleColon",
        Symbol::OpenParen => "OpenParen",
        Symbol::CloseParen => "CloseParen",
        Symbol::OpenBrace => "OpenBrace",
        Symbol::CloseBrace => "CloseBrace",
        Symbol::OpenBracket => "OpenBracket",
        Symbol::CloseBracket => "CloseBracket",
        Symbol::Bar => "Bar",
        Symbol::Comma => "Comma",
        Symbol::Semicolon => "Semicolon",
        Symbol::Colon => "Colon",
        Symbol::Equals => "Equals",
        Symbol::Star => "Star",
        Symbol::Dot => "Dot",
        Symbol::Hash => "Hash",
    }
}

fn suffix_text(suffix: Suffix) -> &'static str {
    match suffix {
        Suffix::Absent => "Absent",
        Suffix::Int32 => "Int32",
        Suffix::Int64 => "Int64",
        Suffix::Native => "Native",
    }
}

fn write_integer(text: &mut String, integer: Integer) -> Result<(), AllocError> {
    let sign = if integer.minus { "minus" } else { "plus" };
    let value = integer.value;
    let suffix = suffix_text(integer.suffix);
    write!(text, "int {sign} {value} {suffix}")
}

// Appends the kind of a lexeme.
fn write_kind(text: &mut String, kind: &LexemeKind) -> Result<(), AllocError> {
    match kind {
        LexemeKind::Keyword(keyword) => text.push_str(keyword_text(*keyword)),
        LexemeKind::Lower(name) => write_named(text, "lower", name.as_slice()),
        LexemeKind::Upper(name) => write_named(text, "upper", name.as_slice()),
        LexemeKind::Tag(name) => write_named(text, "tag", name.as_slice()),
        LexemeKind::Variable(name) => write_named(text, "variable", name.as_slice()),
        LexemeKind::Character(byte) => write!(text, "char {byte}"),
        LexemeKind::Integer(integer) => write_integer(text, *integer),
        LexemeKind::Text(bytes) => write_named(text, "text", bytes.as_slice()),
        LexemeKind::Double(bits) => write!(text, "double {bits:016x}"),
        LexemeKind::Symbol(symbol) => text.push_str(symbol_text(*symbol)),
    }
}

// Appends a lexeme with its offset and its length in bytes.
fn write_lexeme(text: &mut String, lexeme: &Lexeme) -> Result<(), AllocError> {
    write_kind(text, &lexeme.kind)?;
    write!(text, " @{}+{};", lexeme.span.first, lexeme.span.len)
}

fn write_lexemes(text: &mut String, lexemes: &[Lexeme]) -> Result<(), AllocError> {
    for lexeme in lexemes {
        write_lexeme(text, lexeme)?;
    }
    Ok(())
}

// Returns true if `want` is the text of the lexemes.
fn are_known(alloc: Global, lexemes: &[Lexeme], want: &str) -> Result<bool, Memory> {
    let mut known = String::new(alloc);
    write_lexemes(&mut known, lexemes)?;
    Ok(known.as_str() == want)
}

// Returns true if a text has these lexemes.
fn has_lexemes(alloc: Global, text: &[u8], want: &str) -> Result<bool, Memory> {
    match tokens(alloc, text) {
        Ok(lexemes) => are_known(alloc, lexemes.as_slice(), want),
        Err(LexFault::Memory) => Err(Memory),
        Err(_) => Ok(false),
    }
}

// Returns the text of the next lexeme after an offset, of its absence, or of a fault.
fn next_known(alloc: Global, text: &[u8], from: usize) -> Result<String, Memory> {
    let mut known = String::new(alloc);
    if from > text.len() {
        return Ok(known);
    }
    match next_lexeme(alloc, text, from) {
        Ok(Some(lexeme)) => write_lexeme(&mut known, &lexeme)?,
        Ok(None) => known.push_str("none")?,
        Err(LexFault::Memory) => return Err(Memory),
        Err(_) => known.push_str("fault")?,
    }
    Ok(known)
}

// Returns the name and the offset of the first lexical error of a text.
fn fault_of(alloc: Global, text: &[u8]) -> Result<(&'static str, usize), Memory> {
    match tokens(alloc, text) {
        Ok(_) => Ok(("none", 0)),
        Err(LexFault::BadByte(position)) => Ok(("BadByte", position)),
        Err(LexFault::OpenString(position)) => Ok(("OpenString", position)),
        Err(LexFault::OpenComment(position)) => Ok(("OpenComment", position)),
        Err(LexFault::TooBig(position)) => Ok(("TooBig", position)),
        Err(LexFault::Memory) => Err(Memory),
    }
}

// Texts, with their lexemes. The values and positions are those of the lexer of OCaml 4.13.1.
// Lexemes that OCaml does not have, or that OCaml reads in another way, were worked out by hand.
static LEXEMES: [(&str, &str); 44] = [
    (
        "type t = A of int * string | B",
        "Type @0+4;lower t @5+1;Equals @7+1;upper A @9+1;Of @11+2;lower int @14+3;Star @18+1;\
        lower string @20+6;Bar @27+1;upper B @29+1;",
    ),
    (
        "and t_1 = {mutable x : a; y': _z}",
        "And @0+3;lower t_1 @4+3;Equals @8+1;OpenBrace @10+1;Mutable @11+7;lower x @19+1;\
        Colon @21+1;lower a @23+1;Semicolon @24+1;lower y' @26+2;Colon @28+1;lower _z @30+2;\
        CloseBrace @32+1;",
    ),
    ("type'", "lower type' @0+5;"),
    ("types", "lower types @0+5;"),
    ("'a'", "char 97 @0+3;"),
    ("'\\n'", "char 10 @0+4;"),
    ("'\\''", "char 39 @0+4;"),
    ("'\\\\'", "char 92 @0+4;"),
    ("'\\065'", "char 65 @0+6;"),
    ("'\\255'", "char 255 @0+6;"),
    ("'\\x4a'", "char 74 @0+6;"),
    ("'\\xFf'", "char 255 @0+6;"),
    ("'\\ '", "char 32 @0+4;"),
    ("'\\\"'", "char 34 @0+4;"),
    ("'\"'", "char 34 @0+3;"),
    (
        "'\\b' '\\t' '\\r'",
        "char 8 @0+4;char 9 @5+4;char 13 @10+4;",
    ),
    ("'a'b", "char 97 @0+3;lower b @3+1;"),
    (
        "\"a\\n\\t\\b\\r\\ \\'\\\"\\\\z\"",
        "text a\n\t\u{8}\r '\"\\z @0+20;",
    ),
    ("\"\\065\\x41\\255\\000\"", "text AA\u{ff}\0 @0+18;"),
    ("\"(*\" (* *) 1", "text (* @0+4;int plus 1 Absent @11+1;"),
    (
        "12l 12L 12n",
        "int plus 12 Int32 @0+3;int plus 12 Int64 @4+3;int plus 12 Native @8+3;",
    ),
    ("007", "int plus 7 Absent @0+3;"),
    (
        "9223372036854775807",
        "int plus 9223372036854775807 Absent @0+19;",
    ),
    ("[|]", "OpenArray @0+2;CloseBracket @2+1;"),
    ("[||]", "OpenArray @0+2;CloseArray @2+2;"),
    ("::=", "DoubleColon @0+2;Equals @2+1;"),
    (";;;", "DoubleSemicolon @0+2;Semicolon @2+1;"),
    ("()", "OpenParen @0+1;CloseParen @1+1;"),
    (
        "a.b#c,d",
        "lower a @0+1;Dot @1+1;lower b @2+1;Hash @3+1;lower c @4+1;Comma @5+1;lower d @6+1;",
    ),
    ("(* a (* b *) c *)x", "lower x @17+1;"),
    ("x(*y*)z", "lower x @0+1;lower z @6+1;"),
    ("(***)1", "int plus 1 Absent @5+1;"),
    ("\t\r\n\u{c}x", "lower x @4+1;"),
    // Lexemes that OCaml does not have, or that OCaml reads in another way.
    ("'a 'b", "variable a @0+2;variable b @3+2;"),
    ("'type", "variable type @0+5;"),
    ("`A `b `type", "tag A @0+2;tag b @3+2;tag type @6+5;"),
    ("5list", "int plus 5 Int32 @0+2;lower ist @2+3;"),
    ("1_000", "int plus 1 Absent @0+1;lower _000 @1+4;"),
    (
        "-5 -0 0",
        "int minus -5 Absent @0+2;int minus 0 Absent @3+2;int plus 0 Absent @6+1;",
    ),
    (
        "-9223372036854775808n",
        "int minus -9223372036854775808 Native @0+21;",
    ),
    (
        "$FFFfffFFFfffFFFf0",
        "double ffffffffffffffff @0+17;int plus 0 Absent @17+1;",
    ),
    (
        "||]|;:",
        "Bar @0+1;CloseArray @1+2;Bar @3+1;Semicolon @4+1;Colon @5+1;",
    ),
    ("*)", "Star @0+1;CloseParen @1+1;"),
    ("(* \" ' *)", ""),
];

// Texts with lexical errors at their edges. The expected results were worked out by hand.
static FAULTS: [(&[u8], (&str, usize)); 11] = [
    (b"--1", ("BadByte", 0)),
    (b"'\n'", ("BadByte", 0)),
    (b"'A", ("BadByte", 0)),
    (b"'a''", ("BadByte", 3)),
    (b"\"\\25\"", ("BadByte", 2)),
    (b"\"\\xg0\"", ("BadByte", 2)),
    (b"\"a\\q", ("BadByte", 3)),
    (b"\"a\nb\"", ("OpenString", 0)),
    (b"x (* (* *)", ("OpenComment", 2)),
    (b"x -9223372036854775809l", ("TooBig", 2)),
    (b"\xc3\xa9", ("BadByte", 0)),
];

// A text, an offset in the text, and the next lexeme after the offset. The expected results were
// worked out by hand.
static NEXT: [(&[u8], usize, &str); 5] = [
    (b"(* a *) x 12l", 0, "lower x @8+1;"),
    (b"(* a *) x 12l", 9, "int plus 12 Int32 @10+3;"),
    (b"(* a *) x 12l", 13, "none"),
    (b"x (* a *)", 1, "none"),
    (b"x (* a", 1, "fault"),
];

#[test]
fn lexemes_and_faults(rt: HostRuntime) -> Result<(), Fail> {
    for (text, want) in &LEXEMES {
        assert!(rt; has_lexemes(rt.alloc(), text.as_bytes(), want)?);
    }
    for (text, want) in &FAULTS {
        assert!(rt; fault_of(rt.alloc(), text)? == *want);
    }
    for (text, from, want) in &NEXT {
        let known = next_known(rt.alloc(), text, *from)?;
        assert!(rt; known.as_str() == *want);
    }
    Ok(())
}
