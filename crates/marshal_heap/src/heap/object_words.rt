//! Converts headers, integers and custom blocks to words and back.

ghost use Rattle.std.specs.Prelude.{◌≡◌, ◌^◌, ◌<◌, length, slice_index};
ghost use Rattle.base_data.specs.model.Graph.{IsInteger, IsSigned};
ghost use Rattle.marshal_heap.specs.heap.Heap.{integer_word};
ghost use Rattle.marshal_heap.specs.heap.Stored.{integer_from, signed_from, custom_from, kind_from};
ghost use Rattle.marshal_heap.specs.heap.ObjectWords.{header, signed_word};

use crate::heap::kind::Kind;
use crate::heap::strings::string_len;
use base_data::model::code::Custom;

pub const STRING: u64 = 252;

pub const DOUBLE: u64 = 253;

pub const DOUBLES: u64 = 254;

pub const CUSTOM: u64 = 255;

/// Returns the header of an object with this tag and with `size` words after the header.
#[inline(always)]
pub fn header_word(tag: u64, size: u64) -> u64
    requires tag { tag < 1024 }
    requires size { size < 2 ^ 54 }
    ensures { result ≡ header tag size }
{
    size * 1024 + tag
}

/// Returns the word of an integer of 63 bits.
#[inline(always)]
pub fn word_of_integer(z: i64) -> u64
    requires { IsInteger z }
    ensures { result ≡ integer_word z }
{
    if z < 0 {
        u64::MAX - 2 * ((-1 - z) as u64)
    } else {
        2 * (z as u64) + 1
    }
}

/// Returns the integer that an odd word represents.
pub fn integer_of_word(word: u64) -> i64
    ensures { result ≡ integer_from word }
{
    if word < 1 << 63 {
        (word / 2) as i64
    } else {
        -1 - ((u64::MAX - word) / 2) as i64
    }
}

/// Returns the word of an integer in two's complement.
pub fn word_of_signed(z: i64) -> u64
    ensures { result ≡ signed_word z }
{
    if z < 0 {
        u64::MAX - (-1 - z) as u64
    } else {
        z as u64
    }
}

/// Returns the integer that a word represents in two's complement.
pub fn signed_of_word(word: u64) -> i64
    ensures { result ≡ signed_from word }
{
    if word < 1 << 63 {
        word as i64
    } else {
        -1 - (u64::MAX - word) as i64
    }
}

/// Returns the kind and the size of the object with this tag and these words.
pub fn kind_of_words(tag: u64, words: &[u64]) -> Kind
    requires some { 0 < length words.now }
    requires few { length words.now < 2 ^ 54 }
    requires custom { tag ≡ 255
        → (length words.now ≡ 2)
        × (slice_index words.now 0 ≡ 1 → IsSigned 31 (signed_from (slice_index words.now 1))) }
    requires tag { tag < 256 }
    ensures { result ≡ kind_from tag words.now }
{
    match tag {
        STRING => Kind::Bytes(string_len(words)),
        DOUBLE => Kind::Double,
        DOUBLES => Kind::Doubles(words.len() as u64),
        CUSTOM => Kind::Custom(custom_of_words(words)),
        _ => Kind::Block(tag as u8, words.len() as u64),
    }
}

/// Returns the custom block with these two words.
fn custom_of_words(words: &[u64]) -> Custom
    requires two { length words.now ≡ 2 }
    requires fits { slice_index words.now 0 ≡ 1
        → IsSigned 31 (signed_from (slice_index words.now 1)) }
    ensures { result ≡ custom_from (slice_index words.now 0) (slice_index words.now 1) }
{
    let z = signed_of_word(words[1]);
    match words[0] {
        1 => Custom::I32(z as i32),
        2 => Custom::I64(z),
        _ => Custom::Native(z),
    }
}
