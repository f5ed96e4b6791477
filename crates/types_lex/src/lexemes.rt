//! A list of lexemes, stored as a slice of lexemes or as positions in a text.

ghost use Rattle.std.specs.Prelude.{◌≡◌, ◌<◌, ◌^◌, Some, length, map, option_map, slice_get, IfOk};
ghost use Rattle.types_lex.specs.declared.lexeme.Lexeme.{Lexeme};
ghost use Rattle.types_lex.specs.Lexemes.{lexeme_from, lower_name};

use crate::character_classes::{name_len, starts_lower};
use crate::found_lexeme::LexStep;
use crate::lexeme::{Keyword, LexFault, Lexeme, LexemeKind};
use crate::lexer::step_at;
use crate::name_lexer::keyword_of;
use base_data::model::Memory;
use base_data::model::list::List;
use std::alloc::Global;
use std::marker::Model;

/// Returns the kind of the lexeme at a position of a text.
#[inline(always)]
fn kind_from(alloc: Global, text: &[u8], position: usize) -> Result<LexemeKind, Memory>
    ensures { IfOk result (λ kind. kind ≡ (lexeme_from text.now position).kind) }
{
    if position > text.len() {
        return Ok(LexemeKind::Keyword(Keyword::Type));
    }
    match step_at(alloc, &text[position..]) {
        Ok(LexStep::Word(word)) => Ok(word.kind),
        Err(LexFault::Memory) => Err(Memory),
        _ => Ok(LexemeKind::Keyword(Keyword::Type)),
    }
}

/// Returns the lowercase name at a position of a text. If no lowercase name begins at the position,
/// returns the empty name.
#[inline(always)]
fn lower_from(text: &[u8], position: usize) -> &[u8]
    ensures { result.now ≡ lower_name (Some (lexeme_from text.now position).kind) }
{
    if position > text.len() {
        return &[];
    }
    lower_at(&text[position..])
}

/// Returns the lowercase name at the start of the text. If the text begins with no lowercase name,
/// returns the empty name.
#[inline(always)]
fn lower_at(text: &[u8]) -> &[u8]
    ensures { result.now ≡ lower_name (Some (lexeme_from text.now 0).kind) }
{
    let [first, ..] = text else {
        return &[];
    };
    if !starts_lower(*first) {
        return &[];
    }
    let name = &text[..name_len(text)];
    match keyword_of(name) {
        None => name,
        Some(_) => &[],
    }
}

/// Copies a list of bytes.
fn copy_list(alloc: Global, bytes: &List<u8>) -> Result<List<u8>, Memory>
    ensures { IfOk result (λ copy. copy ≡ bytes.now) }
{
    Ok(List::of(Vec::from_slice(alloc, bytes.as_slice())?))
}

/// Copies a kind with its value.
fn copy_kind(alloc: Global, kind: &LexemeKind) -> Result<LexemeKind, Memory>
    ensures { IfOk result (λ copy. copy ≡ kind.now) }
{
    match kind {
        LexemeKind::Keyword(keyword) => Ok(LexemeKind::Keyword(*keyword)),
        LexemeKind::Lower(name) => Ok(LexemeKind::Lower(copy_list(alloc, name)?)),
        LexemeKind::Upper(name) => Ok(LexemeKind::Upper(copy_list(alloc, name)?)),
        LexemeKind::Tag(name) => Ok(LexemeKind::Tag(copy_list(alloc, name)?)),
        LexemeKind::Variable(name) => Ok(LexemeKind::Variable(copy_list(alloc, name)?)),
        LexemeKind::Character(c) => Ok(LexemeKind::Character(*c)),
        LexemeKind::Integer(i) => Ok(LexemeKind::Integer(*i)),
        LexemeKind::Text(bytes) => Ok(LexemeKind::Text(copy_list(alloc, bytes)?)),
        LexemeKind::Double(bits) => Ok(LexemeKind::Double(*bits)),
        LexemeKind::Symbol(symbol) => Ok(LexemeKind::Symbol(*symbol)),
    }
}

/// If the kind is a lowercase name, returns the name. If the kind is no lowercase name, returns the
/// empty name.
fn lower_of(kind: &LexemeKind) -> &[u8]
    ensures { result.now ≡ lower_name (Some kind.now) }
{
    match kind {
        LexemeKind::Lower(name) => name.as_slice(),
        _ => &[],
    }
}

/// The storage of a list of lexemes: a slice of lexemes, or a text and the positions where the
/// lexemes begin.
#[derive(Clone, Copy)]
enum LexemeStorage<'a> {
    Row(&'a [Lexeme]),
    Text(&'a [u8], &'a [u32]),
}

/// A list of lexemes. The model of `Lexemes` is the list.
#[derive(Drop)]
pub struct Lexemes<'a> {
    source: LexemeStorage<'a>,
}

impl<'a> Model for Lexemes<'a> {
    ghost use Rattle.std.specs.Prelude.{List};
    ghost use Rattle.types_lex.specs.declared.lexeme.Lexeme.{Lexeme};
    ghost use Rattle.types_lex.specs.Sources.{lexemes_in};

    ghost Value = { List Lexeme };

    ghost view = { λ l. lexemes_in l.source };
}

impl<'a> Lexemes<'a> {
    /// Creates the list of the lexemes in a slice.
    pub fn of_row(row: &'a [Lexeme]) -> Lexemes<'a>
        ensures { result ≡ row.now }
    {
        Lexemes {
            source: LexemeStorage::Row(row),
        }
    }

    /// Creates the list of the lexemes at these positions of a text. Each access lexes the lexeme
    /// again.
    pub fn of_text(text: &'a [u8], positions: &'a [u32]) -> Lexemes<'a>
        ensures { result ≡ map (lexeme_from text.now) positions.now }
    {
        Lexemes {
            source: LexemeStorage::Text(text, positions),
        }
    }

    /// Returns the number of lexemes in the list.
    pub fn len(&self) -> usize
        ensures count { result ≡ length self.now }
        ensures few { result < 2 ^ 63 }
    {
        match &self.source {
            LexemeStorage::Row(row) => row.len(),
            LexemeStorage::Text(_, positions) => positions.len(),
        }
    }

    /// Returns the position of the first byte of lexeme `k`. If the list has no lexeme `k`, returns
    /// `None`.
    #[inline(always)]
    pub fn first(&self, k: usize) -> Option<usize>
        ensures { result ≡ option_map (λ (l : Lexeme). l.span.first) (slice_get self.now k) }
    {
        match &self.source {
            LexemeStorage::Row(row) => match row.get(k) {
                Some(lexeme) => Some(lexeme.span.first),
                None => None,
            },
            LexemeStorage::Text(_, positions) => match positions.get(k) {
                Some(position) => Some(*position as usize),
                None => None,
            },
        }
    }

    /// If lexeme `k` is a lowercase name, returns the name. If lexeme `k` is no lowercase name,
    /// returns the empty name.
    pub fn lower(&self, k: usize) -> &[u8]
        ensures { result.now
            ≡ lower_name (option_map (λ (l : Lexeme). l.kind) (slice_get self.now k)) }
    {
        match &self.source {
            LexemeStorage::Row(row) => match row.get(k) {
                Some(lexeme) => lower_of(&lexeme.kind),
                None => &[],
            },
            LexemeStorage::Text(text, positions) => match positions.get(k) {
                Some(position) => lower_from(text, *position as usize),
                None => &[],
            },
        }
    }

    /// Returns the kind of lexeme `k`. If the list has no lexeme `k`, returns `None`. If memory
    /// runs out, fails with `Memory`.
    #[inline(always)]
    pub fn kind(&self, alloc: Global, k: usize) -> Result<Option<LexemeKind>, Memory>
        ensures { IfOk result
            (λ kind. kind ≡ option_map (λ (l : Lexeme). l.kind) (slice_get self.now k)) }
    {
        match &self.source {
            LexemeStorage::Row(row) => match row.get(k) {
                Some(lexeme) => Ok(Some(copy_kind(alloc, &lexeme.kind)?)),
                None => Ok(None),
            },
            LexemeStorage::Text(text, positions) => match positions.get(k) {
                Some(position) => Ok(Some(kind_from(alloc, text, *position as usize)?)),
                None => Ok(None),
            },
        }
    }
}
