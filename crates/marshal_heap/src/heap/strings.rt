//! Stores strings as words: eight bytes each, least significant byte first. Zero bytes pad the
//! string. The last byte of the last word is the number of padding bytes before the last byte.

ghost use Rattle.std.specs.Prelude.{◌≡◌, ◌+◌, ◌-◌, ◌*◌, ◌/◌, ◌%◌, ◌^◌, ◌<◌, ◌≤◌, [], ◌∷◌, ◌++◌};
ghost use Rattle.std.specs.Prelude.{length, take, drop, replicate, slice_set};
ghost use Rattle.marshal_heap.specs.heap.Stored.{string_length};
ghost use Rattle.marshal_heap.specs.heap.ObjectWords.{word_of_bytes, bytes_of_word, string_words};
ghost use Rattle.marshal_heap.specs.heap.ObjectWords.{byte_in};

use crate::arena::region::Region;

/// Appends the words of a string with the bytes `content`.
#[inline(always)]
pub fn append_string(region: &mut Region, content: &[u8])
    requires { length content.now / 8 + 1 ≤ region.old.spare }
    ensures { region.new.words ≡ region.old.words ++ string_words content.now }
{
    let whole = content.len() / 8;
    for j in 0..whole {
        region.append_reserved(whole_word(content, j));
    }
    region.append_reserved(last_word(&content[8 * whole..]));
}

/// Appends the words of a string of `len` zero bytes.
pub fn append_zeros(region: &mut Region, len: usize)
    requires { len / 8 + 1 ≤ region.old.spare }
    ensures { region.new.words ≡ region.old.words ++ string_words (replicate len 0) }
{
    let zeros = [0u8; 8];
    region.append_run(len / 8, 0);
    region.append_reserved(last_word(&zeros[..len % 8]));
}

/// Returns word `j` of a string. All eight bytes of the word are bytes of the string.
#[inline(always)]
fn whole_word(content: &[u8], j: usize) -> u64
    requires { j < length content.now / 8 }
    ensures { result ≡ word_of_bytes (take 8 (drop (8 * j) content.now)) }
{
    let mut bytes = [0u8; 8];
    bytes.copy_from_slice(&content[8 * j..8 * j + 8]);
    u64::from_le_bytes(bytes)
}

/// Returns the last word of a string, which contains the string's remaining bytes. Each number of
/// remaining bytes has code of its own, because a loop would be compiled to a call that copies
/// memory.
#[tactic(auto, unfolding(crate::specs::heap::ObjectWords::word_of_bytes))]
#[inline(always)]
fn last_word(rest: &[u8]) -> u64
    requires { length rest.now < 8 }
    ensures { result
        ≡ word_of_bytes
        (rest.now ++ (replicate (7 - length rest.now) 0 ++ (7 - length rest.now) ∷ [])) }
{
    match rest.len() {
        0 => u64::from_le_bytes([0, 0, 0, 0, 0, 0, 0, 7]),
        1 => u64::from_le_bytes([rest[0], 0, 0, 0, 0, 0, 0, 6]),
        2 => u64::from_le_bytes([rest[0], rest[1], 0, 0, 0, 0, 0, 5]),
        3 => u64::from_le_bytes([rest[0], rest[1], rest[2], 0, 0, 0, 0, 4]),
        4 => u64::from_le_bytes([rest[0], rest[1], rest[2], rest[3], 0, 0, 0, 3]),
        5 => u64::from_le_bytes([rest[0], rest[1], rest[2], rest[3], rest[4], 0, 0, 2]),
        6 => u64::from_le_bytes([rest[0], rest[1], rest[2], rest[3], rest[4], rest[5], 0, 1]),
        _ => u64::from_le_bytes([
            rest[0], rest[1], rest[2], rest[3], rest[4], rest[5], rest[6], 0,
        ]),
    }
}

/// Returns the length in bytes of the string that these words store.
pub fn string_len(words: &[u64]) -> u64
    requires some { 0 < length words.now }
    requires few { length words.now < 2 ^ 54 }
    ensures { result ≡ string_length words.now }
{
    let bytes = 8 * words.len();
    let zeros = byte_of(words, bytes - 1);
    (bytes as u64 - 1).saturating_sub(u64::from(zeros))
}

/// Returns byte `i` of the string that these words store.
#[tactic(auto, unfolding(crate::specs::heap::ObjectWords::word_of_bytes, crate::specs::heap::ObjectWords::bytes_of_word))]
pub fn byte_of(words: &[u64], i: usize) -> u8
    requires { i / 8 < length words.now }
    ensures { result ≡ byte_in words.now i }
{
    words[i / 8].to_le_bytes()[i % 8]
}

/// Returns the word with byte `k` replaced by `b`.
#[tactic(auto, unfolding(crate::specs::heap::ObjectWords::word_of_bytes, crate::specs::heap::ObjectWords::bytes_of_word))]
pub fn with_byte(word: u64, k: usize, b: u8) -> u64
    requires { k < 8 }
    ensures { result ≡ word_of_bytes (slice_set (bytes_of_word word) k b) }
{
    let mut bytes = word.to_le_bytes();
    bytes[k] = b;
    u64::from_le_bytes(bytes)
}
