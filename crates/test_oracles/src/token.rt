//! The tokens that bytes encode. Each width and byte order that `intern.c` reads is read.

ghost use Rattle.std.specs.Prelude.{◌≡◌, ◌*◌, ℕ, List as Seq, length, map, IfOk};
ghost use Rattle.std.specs.List.{AllZip};
ghost use Rattle.base_data.specs.model.Bytes.{EncodesDoubles};
ghost use Rattle.marshal_spec.specs.format.Token.{Token as Encoded, block_or_atom, word_token};
ghost use Rattle.marshal_spec.specs.format.Token.{leaf};
ghost use Rattle.marshal_spec.specs.format.Token.{EncodesCustom, EncodesAfter, Encodes};
ghost use Rattle.base_data.specs.declared.model.value.Obj.TheVariants as objects;
ghost use Rattle.test_oracles.specs.Token.{token_of};

use crate::code::{custom_of, kind_of};
use crate::cut::{first, number_of};
use base_data::model::bytes::{big_endian, double, signed, skip};
use base_data::model::code::{CodeKind, CustomKind};
use base_data::model::list::List;
use base_data::model::value::Obj;
use marshal_codec::codes::KnownKind;
use std::alloc::{AllocError, Global};

/// A token. A reference has the offset back from the next object. A block has a tag and a size, and
/// the values after the block are its fields. A leaf is an object without fields.
#[derive(Drop)]
pub enum Token {
    Integer(i64),
    Atom(u8),
    Shared(u64),
    Block(u8, u64),
    Leaf(Obj),
}

/// Returns a block, or an atom if `size` is 0.
fn block_or_atom(tag: u8, size: u64) -> Token
    ensures { token_of result ≡ block_or_atom tag size }
{
    if size == 0 {
        Token::Atom(tag)
    } else {
        Token::Block(tag, size)
    }
}

/// Returns the token of a header word.
fn word_token(word: u64) -> Token
    ensures { token_of result ≡ word_token word }
{
    block_or_atom((word % 256) as u8, word / 1024)
}

/// Returns the `count` doubles that the bytes encode, each in eight bytes.
fn doubles_of(
    alloc: Global,
    little: bool,
    count: usize,
    bytes: &[u8],
) -> Result<Vec<u64>, AllocError>
    requires { length bytes.now ≡ 8 * count }
    ensures { IfOk result (λ all. EncodesDoubles little all.items bytes.now) }
{
    let mut all = Vec::new(alloc);
    for i in 0..count {
        all.push(double(&bytes[8 * i..8 * i + 8], little))?;
    }
    Ok(all)
}

/// Returns the token of a custom value. `rest` are the bytes after the code.
fn custom_token(rest: &[u8]) -> Token
    requires { (t : Encoded) × EncodesCustom rest.now t }
    ensures { (t : Encoded) → EncodesCustom rest.now t → token_of result ≡ t }
{
    match custom_of(first(rest, 3)) {
        Some(CustomKind::Int32) => Token::Leaf(Obj::I32(signed(skip(rest, 3)) as i32)),
        Some(CustomKind::Int64) => Token::Leaf(Obj::I64(signed(skip(rest, 3)))),
        _ => Token::Leaf(Obj::Native(signed(skip(rest, 4)))),
    }
}

/// Returns the token of a string with these bytes.
fn string_token(alloc: Global, bytes: &[u8]) -> Result<Token, AllocError>
    ensures { IfOk result (λ t. token_of t ≡ leaf (objects.Bytes bytes.now)) }
{
    Ok(Token::Leaf(Obj::Bytes(List::of(Vec::from_slice(alloc, bytes)?))))
}

/// Returns the token of an array of `count` doubles.
fn doubles_token(
    alloc: Global,
    little: bool,
    count: usize,
    bytes: &[u8],
) -> Result<Token, AllocError>
    requires { length bytes.now ≡ 8 * count }
    ensures { IfOk result
        (λ t. (all : Seq ℕ) → EncodesDoubles little all bytes.now
        → token_of t ≡ leaf (objects.Doubles all)) }
{
    let all = doubles_of(alloc, little, count, bytes)?;
    Ok(Token::Leaf(Obj::Doubles(List::of(all))))
}

/// Returns the token of this kind. `rest` are the bytes after the code.
fn token_after(alloc: Global, kind: KnownKind, rest: &[u8]) -> Result<Token, AllocError>
    requires encoded { (t : Encoded) × EncodesAfter kind.kind rest.now t }
    ensures { IfOk result
        (λ t. (u : Encoded) → EncodesAfter kind.kind rest.now u → token_of t ≡ u) }
{
    match kind.kind {
        CodeKind::SmallBlock(tag, size) => Ok(block_or_atom(tag, u64::from(size))),
        CodeKind::SmallInt(n) => Ok(Token::Integer(i64::from(n))),
        CodeKind::SmallString(_) => string_token(alloc, rest),
        CodeKind::Int(_) => Ok(Token::Integer(signed(rest))),
        CodeKind::Shared(_) => Ok(Token::Shared(big_endian(rest))),
        CodeKind::Block(_) => Ok(word_token(big_endian(rest))),
        CodeKind::Str(width) => string_token(alloc, skip(rest, usize::from(width))),
        CodeKind::Double(little) => Ok(Token::Leaf(Obj::Double(double(rest, little)))),
        CodeKind::Doubles(width, little) => {
            let width = usize::from(width);
            let bytes = skip(rest, width);
            doubles_token(alloc, little, number_of(rest, width) as usize, bytes)
        }
        CodeKind::Custom(_) => Ok(custom_token(rest)),
    }
}

/// Returns the token that the bytes encode.
fn token_encoded(alloc: Global, bytes: &[u8]) -> Result<Token, AllocError>
    requires { (t : Encoded) × Encodes t bytes.now }
    ensures { IfOk result (λ t. Encodes (token_of t) bytes.now) }
{
    match kind_of(bytes[0]) {
        Ok(kind) => token_after(alloc, KnownKind { kind }, skip(bytes, 1)),
        Err(_) => unreachable!(),
    }
}

/// Returns the tokens that the byte strings encode, one token for each byte string.
pub fn tokens_encoded(alloc: Global, chunks: &[List<u8>]) -> Result<Vec<Token>, AllocError>
    requires { (all : Seq Encoded) × AllZip Encodes all chunks.now }
    ensures { IfOk result (λ tokens. AllZip Encodes (map token_of tokens.items) chunks.now) }
{
    let mut tokens = Vec::new(alloc);
    for chunk in chunks {
        tokens.push(token_encoded(alloc, chunk.as_slice())?)?;
    }
    Ok(tokens)
}
