//! Stores objects as words of the arena.

ghost use Rattle.std.specs.Prelude.{◌≡◌, ◌+◌, ◌/◌, ◌<◌, ◌≤◌, ◌^◌, [], ◌∷◌, ◌++◌, length, take};
ghost use Rattle.std.specs.Prelude.{drop, replicate, All, MatchResult, MatchBool, OnOk};
ghost use Rattle.std.specs.Prelude.{slice_index, slice_range};
ghost use Rattle.std.specs.Bool.{OnTrue};
ghost use Rattle.marshal_heap.specs.heap.ObjectWords.{custom_words};

use crate::arena::region::Region;
use crate::heap::object_words::word_of_signed;
use crate::offsets::offset_list::OffsetList;
use base_data::model::Memory;
use base_data::model::code::Custom;

/// Makes room for an object of `words` words, and records the end of the arena as the offset of the
/// object's header. Returns the object's number. Fails with `Memory` if memory runs out.
#[inline(always)]
pub fn begin(region: &mut Region, positions: &mut OffsetList, words: u64) -> Result<u64, Memory>
    requires { All (λ p. p < length region.old.words) positions.old }
    ensures positions { MatchResult result
        (λ number. (number ≡ length positions.old)
        × (positions.new ≡ positions.old ++ length region.old.words ∷ []))
        (λ _. positions.new ≡ positions.old) }
    ensures words { region.new.words ≡ region.old.words }
    ensures room { OnOk result (words ≤ region.new.spare) }
    ensures small { OnOk result (length region.old.words + words < 2 ^ 60) }
{
    region.reserve(words as usize)?;
    let number = positions.len() as u64;
    let end = region.len() as u64;
    positions.push(end)?;
    Ok(number)
}

/// If no allocation is needed, does what `begin` does and returns true. If an allocation is needed,
/// returns false and changes nothing.
#[inline(always)]
pub fn begin_in_room(region: &Region, positions: &mut OffsetList, words: u64) -> bool
    requires { All (λ p. p < length region.now.words) positions.old }
    ensures positions { MatchBool result
        (positions.new ≡ positions.old ++ length region.now.words ∷ [])
        (positions.new ≡ positions.old) }
    ensures room { OnTrue result (words ≤ region.now.spare) }
    ensures small { OnTrue result (length region.now.words + words < 2 ^ 60) }
{
    region.has_room(words as usize) && positions.push_in_room(region.len() as u64)
}

/// Appends the fields of a new block. All fields are the integer 0.
#[inline(always)]
pub fn append_fields(region: &mut Region, size: usize)
    requires { size ≤ region.old.spare }
    ensures { region.new.words ≡ region.old.words ++ replicate size 1 }
{
    // The code for small blocks has no loop.
    match size {
        0 => {}
        1 => region.append_reserved(1),
        2 => {
            region.append_reserved(1);
            region.append_reserved(1);
        }
        3 => {
            region.append_reserved(1);
            region.append_reserved(1);
            region.append_reserved(1);
        }
        _ => {
            region.append_reserved(1);
            region.append_reserved(1);
            region.append_reserved(1);
            region.append_reserved(1);
            region.append_run(size - 4, 1);
        }
    }
}

/// Appends the words of a custom block.
pub fn append_custom(region: &mut Region, c: Custom)
    requires { 2 ≤ region.old.spare }
    ensures { region.new.words ≡ region.old.words ++ custom_words c }
{
    let (id, word) = match c {
        Custom::I32(z) => (1, word_of_signed(i64::from(z))),
        Custom::I64(z) => (2, word_of_signed(z)),
        Custom::Native(z) => (3, word_of_signed(z)),
    };
    region.append_reserved(id);
    region.append_reserved(word);
}

/// Appends a copy of the `n` words of the arena from index `from` on.
pub fn append_copy(region: &mut Region, from: usize, n: usize)
    requires inside { from + n ≤ length region.old.words }
    requires small { from + n < 2 ^ 60 }
    requires room { n ≤ region.old.spare }
    ensures { region.new.words ≡ region.old.words ++ slice_range region.old.words from (from + n) }
{
    for k in 0..n {
        let word = region.get(from + k);
        region.append_reserved(word);
    }
}

/// Returns the words after the header at this offset.
pub fn body_in(region: &Region, at: usize) -> &[u64]
    requires small { length region.now.words < 2 ^ 60 }
    requires inside { at + 1 + slice_index region.now.words at / 1024 ≤ length region.now.words }
    ensures { result.now
        ≡ take (slice_index region.now.words at / 1024) (drop (at + 1) region.now.words) }
{
    let size = region.get(at) / 1024;
    region.part(at + 1, size as usize)
}
