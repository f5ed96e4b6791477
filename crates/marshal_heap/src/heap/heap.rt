//! The heap: the 64-bit words of all objects in one arena, and the offsets of the objects' headers.

ghost use Rattle.std.specs.Prelude.{◌≡◌, ℕ, ◌+◌, ◌*◌, ◌/◌, ◌<◌, ◌≤◌, ◌^◌, List, [], length, map};
ghost use Rattle.std.specs.Prelude.{take, All, vec_len, replicate, pos};
ghost use Rattle.base_data.specs.model.Graph.{IsValue, IsObject, IsGraph};
ghost use Rattle.marshal_spec.specs.format.Words.{words64};
ghost use Rattle.base_data.specs.declared.model.value.Val.{Val};
ghost use Rattle.base_data.specs.declared.model.value.Val.TheVariants as vals;
ghost use Rattle.base_data.specs.declared.model.value.Obj.TheVariants as objects;
ghost use Rattle.base_data.specs.declared.model.code.Measure.TheVariants as measures;
ghost use Rattle.marshal_heap.specs.heap.Heap.{object_at, fields_of, bytes_of, doubles_of};
ghost use Rattle.marshal_heap.specs.heap.Heap.{field_at, byte_at};
ghost use Rattle.marshal_heap.specs.heap.Heap.{double_at, set_field, set_byte, set_double};
ghost use Rattle.marshal_heap.specs.heap.Heap.{custom_object};
ghost use Rattle.marshal_heap.specs.heap.Heap.{kind_of, IsOfKind, IsHeap, Appends, AppendsInRoom};
ghost use Rattle.marshal_heap.specs.heap.Heap.{object_words, heap_words, IsBlock, position};
ghost use Rattle.marshal_heap.specs.heap.Heap.{word_of, key_of};
ghost use Rattle.marshal_heap.specs.heap.Heap.{IsFieldWord, IsReferenceWord, ForNamed};
ghost use Rattle.marshal_heap.specs.heap.ObjectWords.{header_of, body_of};

use crate::arena::region::Region;
use crate::heap::kind::Kind;
use crate::heap::object_words::{
    CUSTOM, DOUBLE, DOUBLES, STRING, header_word, integer_of_word, kind_of_words, word_of_integer,
};
use crate::heap::objects::{
    append_copy, append_custom, append_fields, begin, begin_in_room, body_in,
};
use crate::heap::strings::{append_string, append_zeros, with_byte};
use crate::offsets::offset_list::OffsetList;
use base_data::model::Memory;
use base_data::model::code::Custom;
use base_data::model::value::Val;
use std::alloc::Global;
use std::marker::Model;

/// A graph of objects. Contracts see the list of the graph's objects, and an object's number is its
/// index in the list.
///
/// A call that appends an object returns the object's number. If memory runs out, the call returns
/// `Memory` and changes nothing. If all objects together would have 2^60 or more words, counted as
/// on a 64-bit platform, the call also returns `Memory`.
#[derive(Drop)]
pub struct Heap {
    region: Region,
    positions: OffsetList,
}

impl Model for Heap {
    ghost use Rattle.std.specs.Prelude.{List};
    ghost use Rattle.base_data.specs.declared.model.value.Obj.{Obj};

    ghost Value = { List Obj };

    ghost use Rattle.marshal_heap.specs.heap.Stored.{decode, IsStored};

    ghost view = { λ h. decode h.region.words h.positions };

    ghost invariant = { λ h. IsStored h.region.words h.positions };
}

impl Heap {
    /// Returns an empty heap.
    pub fn new(alloc: Global) -> Heap
        ensures { result ≡ [] }
    {
        Heap {
            region: Region::new(alloc),
            positions: OffsetList::new(alloc),
        }
    }

    /// Returns the number of objects. The contract of `count` also states the invariant of each
    /// heap.
    pub fn count(&self) -> u64
        ensures count { result ≡ length self.now }
        ensures heap { IsHeap self.now }
    {
        self.positions.len() as u64
    }

    /// Returns the number of 64-bit words of all objects, including headers.
    pub fn words(&self) -> u64
        ensures { result ≡ heap_words self.now }
    {
        self.region.len() as u64
    }

    /// Reserves memory for `words` more words. If memory runs out, nothing changes.
    pub fn make_room(&mut self, words: u64)
        ensures { self.new ≡ self.old }
    {
        let _room = self.region.reserve(words as usize);
    }

    /// Appends a block with `size` fields, all of which are the integer 0.
    #[inline(always)]
    pub fn add_block(&mut self, tag: u8, size: u64) -> Result<u64, Memory>
        requires tag { tag ≤ 243 }
        requires nonempty { 0 < size }
        requires small { words64 (measures.Block size) < 2 ^ 54 }
        ensures { Appends self.old self.new
            (objects.Block tag (replicate size (vals.Int (pos 0)))) result }
    {
        let header = header_word(u64::from(tag), size);
        let number = begin(&mut self.region, &mut self.positions, 1 + size)?;
        self.region.append_reserved(header);
        self.region.append_run(size as usize, 1);
        Ok(number)
    }

    /// Appends a block whose fields are the integer 0, if the block needs no allocation. Returns
    /// the word of a reference to the block, or `None` if the block would need an allocation.
    #[inline(always)]
    pub fn add_block_in_room(&mut self, tag: u8, size: u64) -> Option<u64>
        requires tag { tag ≤ 243 }
        requires nonempty { 0 < size }
        requires small { words64 (measures.Block size) < 2 ^ 54 }
        ensures { AppendsInRoom self.old self.new
            (objects.Block tag (replicate size (vals.Int (pos 0)))) result }
    {
        let position = self.region.len() as u64;
        if !begin_in_room(&self.region, &mut self.positions, 1 + size) {
            return None;
        }
        self.region
            .append_reserved(header_word(u64::from(tag), size));
        append_fields(&mut self.region, size as usize);
        Some(8 * position)
    }

    /// Appends a string with these bytes, if the string needs no allocation. Returns the word of a
    /// reference to the string, or `None` if the string would need an allocation.
    #[inline(always)]
    pub fn add_bytes_in_room(&mut self, content: &[u8]) -> Option<u64>
        requires small { words64 (measures.Bytes (length content.now)) < 2 ^ 54 }
        ensures { AppendsInRoom self.old self.new (objects.Bytes content.now) result }
    {
        let position = self.region.len() as u64;
        let size = content.len() as u64 / 8 + 1;
        if !begin_in_room(&self.region, &mut self.positions, 1 + size) {
            return None;
        }
        self.region.append_reserved(header_word(STRING, size));
        append_string(&mut self.region, content);
        Some(8 * position)
    }

    /// Appends a double with these bits, if the double needs no allocation. Returns the word of a
    /// reference to the double, or `None` if the double would need an allocation.
    #[inline(always)]
    pub fn add_double_in_room(&mut self, bits: u64) -> Option<u64>
        ensures { AppendsInRoom self.old self.new (objects.Double bits) result }
    {
        let position = self.region.len() as u64;
        if !begin_in_room(&self.region, &mut self.positions, 2) {
            return None;
        }
        self.region.append_reserved(header_word(DOUBLE, 1));
        self.region.append_reserved(bits);
        Some(8 * position)
    }

    /// Appends a block whose fields are given as words.
    pub fn add_block_of(&mut self, tag: u8, words: &[u64]) -> Result<u64, Memory>
        requires tag { tag ≤ 243 }
        requires nonempty { 0 < length words.now }
        requires small { words64 (measures.Block (length words.now)) < 2 ^ 54 }
        requires valid { All (IsFieldWord self.old) words.now }
        ensures { (values : List Val) → All (IsValue (length self.old)) values
            → words.now ≡ map (word_of self.old) values
            → Appends self.old self.new (objects.Block tag values) result }
    {
        let size = words.len() as u64;
        let number = begin(&mut self.region, &mut self.positions, 1 + size)?;
        self.region
            .append_reserved(header_word(u64::from(tag), size));
        self.region.append_slice(words);
        Ok(number)
    }

    /// Appends a string of `len` zero bytes.
    pub fn add_bytes(&mut self, len: u64) -> Result<u64, Memory>
        requires small { words64 (measures.Bytes len) < 2 ^ 54 }
        ensures { Appends self.old self.new (objects.Bytes (replicate len 0)) result }
    {
        let size = len / 8 + 1;
        let number = begin(&mut self.region, &mut self.positions, 1 + size)?;
        self.region.append_reserved(header_word(STRING, size));
        append_zeros(&mut self.region, len as usize);
        Ok(number)
    }

    /// Appends a string with these bytes.
    #[inline(always)]
    pub fn add_bytes_of(&mut self, content: &[u8]) -> Result<u64, Memory>
        requires small { words64 (measures.Bytes (length content.now)) < 2 ^ 54 }
        ensures { Appends self.old self.new (objects.Bytes content.now) result }
    {
        let size = content.len() as u64 / 8 + 1;
        let number = begin(&mut self.region, &mut self.positions, 1 + size)?;
        self.region.append_reserved(header_word(STRING, size));
        append_string(&mut self.region, content);
        Ok(number)
    }

    /// Appends a double with these bits.
    #[inline(always)]
    pub fn add_double(&mut self, bits: u64) -> Result<u64, Memory>
        ensures { Appends self.old self.new (objects.Double bits) result }
    {
        let number = begin(&mut self.region, &mut self.positions, 2)?;
        self.region.append_reserved(header_word(DOUBLE, 1));
        self.region.append_reserved(bits);
        Ok(number)
    }

    /// Appends an array of `len` doubles whose bits are 0.
    pub fn add_doubles(&mut self, len: u64) -> Result<u64, Memory>
        requires nonempty { 0 < len }
        requires small { words64 (measures.Doubles len) < 2 ^ 54 }
        ensures { Appends self.old self.new (objects.Doubles (replicate len 0)) result }
    {
        let number = begin(&mut self.region, &mut self.positions, 1 + len)?;
        self.region.append_reserved(header_word(DOUBLES, len));
        self.region.append_run(len as usize, 0);
        Ok(number)
    }

    /// Appends an array of doubles with these bits.
    pub fn add_doubles_of(&mut self, all: Vec<u64>) -> Result<u64, Memory>
        requires nonempty { 0 < vec_len all }
        requires small { words64 (measures.Doubles (vec_len all)) < 2 ^ 54 }
        ensures { Appends self.old self.new (objects.Doubles all.items) result }
    {
        let len = all.len() as u64;
        let number = begin(&mut self.region, &mut self.positions, 1 + len)?;
        self.region.append_reserved(header_word(DOUBLES, len));
        self.region.append_slice(&all);
        Ok(number)
    }

    /// Appends a custom block.
    pub fn add_custom(&mut self, c: Custom) -> Result<u64, Memory>
        ensures { Appends self.old self.new (custom_object c) result }
    {
        let number = begin(&mut self.region, &mut self.positions, 3)?;
        self.region.append_reserved(header_word(CUSTOM, 2));
        append_custom(&mut self.region, c);
        Ok(number)
    }

    /// Appends a copy of object `o`.
    pub fn copy_object(&mut self, o: u64) -> Result<u64, Memory>
        requires { o < length self.old }
        ensures { Appends self.old self.new (object_at self.old o) result }
    {
        let from = self.position(o);
        let size = self.region.get(from) / 1024;
        let number = begin(&mut self.region, &mut self.positions, 1 + size)?;
        append_copy(&mut self.region, from, 1 + size as usize);
        Ok(number)
    }

    /// Returns the kind and the size of an object.
    pub fn kind(&self, o: u64) -> Kind
        requires { o < length self.now }
        ensures kind { result ≡ kind_of (object_at self.now o) }
        ensures object { IsOfKind result (object_at self.now o) }
    {
        self.kind_at(self.word(Val::Ref(o)))
    }

    /// Returns field `i` of a block.
    pub fn field(&self, o: u64, i: u64) -> Val
        requires { i < length (fields_of (object_at self.now o)) }
        ensures field { result ≡ field_at self.now o i }
        ensures valid { IsValue (length self.now) result }
    {
        let at = self.position(o) + 1 + i as usize;
        self.value_of(self.region.get(at))
    }

    /// Returns the fields of a block as words.
    pub fn fields(&self, o: u64) -> &[u64]
        requires { IsBlock (object_at self.now o) }
        ensures words { result.now ≡ map (word_of self.now) (fields_of (object_at self.now o)) }
        ensures valid { All (IsFieldWord self.now) result.now }
    {
        self.fields_at(self.word(Val::Ref(o)))
    }

    /// Decodes a word to the value that the word represents.
    pub fn value_of(&self, word: u64) -> Val
        requires { IsFieldWord self.now word }
        ensures word { word ≡ word_of self.now result }
        ensures valid { IsValue (length self.now) result }
    {
        if word % 2 == 1 {
            Val::Int(integer_of_word(word))
        } else if word % 8 == 2 {
            Val::Atom((word / 8) as u8)
        } else {
            Val::Ref(self.number(word))
        }
    }

    /// Returns the number of the object to which the word refers.
    pub fn number(&self, word: u64) -> u64
        requires { IsReferenceWord self.now word }
        ensures in_range { result < length self.now }
        ensures named { word ≡ word_of self.now (vals.Ref result) }
    {
        self.positions.number(word / 8) as u64
    }

    /// Returns a number that serves as an index of tables. Two references have the same key if and
    /// only if they refer to the same object.
    pub fn key(&self, word: u64) -> usize
        requires { IsReferenceWord self.now word }
        ensures { (k : ℕ) → k < length self.now → word ≡ word_of self.now (vals.Ref k)
            → result ≡ key_of self.now k }
    {
        (word / 16) as usize
    }

    /// Returns a number that is greater than every key.
    pub fn keys(&self) -> usize
        ensures { (k : ℕ) → k < length self.now → key_of self.now k < result }
    {
        self.region.len() / 2
    }

    /// Returns the word that represents a value.
    #[inline(always)]
    pub fn word(&self, v: Val) -> u64
        requires { IsValue (length self.now) v }
        ensures { result ≡ word_of self.now v }
    {
        match v {
            Val::Int(z) => word_of_integer(z),
            Val::Atom(tag) => 8 * u64::from(tag) + 2,
            Val::Ref(k) => 8 * self.position(k) as u64,
        }
    }

    /// Returns the header of the object to which the word refers: 1024 times the number of words
    /// after the header, plus the tag.
    pub fn header_at(&self, word: u64) -> u64
        requires { IsReferenceWord self.now word }
        ensures { ForNamed self.now word (λ object. result ≡ header_of object) }
    {
        self.region.get((word / 8) as usize)
    }

    /// Returns the kind and the size of the object to which the word refers.
    pub fn kind_at(&self, word: u64) -> Kind
        requires { IsReferenceWord self.now word }
        ensures { ForNamed self.now word (λ object. result ≡ kind_of object) }
    {
        let at = (word / 8) as usize;
        kind_of_words(self.region.get(at) % 1024, body_in(&self.region, at))
    }

    /// Returns the fields of the block to which the word refers, as words.
    pub fn fields_at(&self, word: u64) -> &[u64]
        requires { (k : ℕ) × (k < length self.now) × (word ≡ word_of self.now (vals.Ref k))
            × IsBlock (object_at self.now k) }
        ensures words { ForNamed self.now word
            (λ object. result.now ≡ map (word_of self.now) (fields_of object)) }
        ensures valid { All (IsFieldWord self.now) result.now }
    {
        body_in(&self.region, (word / 8) as usize)
    }

    /// Returns the words after the header of the object to which the word refers.
    pub fn body_at(&self, word: u64) -> &[u64]
        requires { IsReferenceWord self.now word }
        ensures words { ForNamed self.now word (λ object. result.now ≡ body_of self.now object) }
        ensures valid { ForNamed self.now word (IsObject (length self.now)) }
    {
        body_in(&self.region, (word / 8) as usize)
    }

    /// Writes `v` to field `i` of a block. If `v` is a reference, `v` may refer to any object of
    /// the heap, even to an object that is not completely filled yet.
    #[inline(always)]
    pub fn set(&mut self, o: u64, i: u64, v: Val)
        requires position { i < length (fields_of (object_at self.old o)) }
        requires valid { IsValue (length self.old) v }
        ensures { self.new ≡ set_field self.old o i v }
    {
        self.set_word(o, i, self.word(v));
    }

    /// Writes the value that `word` represents to field `i` of a block.
    #[inline(always)]
    pub fn set_word(&mut self, o: u64, i: u64, word: u64)
        requires position { i < length (fields_of (object_at self.old o)) }
        requires valid { IsFieldWord self.old word }
        ensures { (v : Val) → IsValue (length self.old) v → word ≡ word_of self.old v
            → self.new ≡ set_field self.old o i v }
    {
        let at = self.position(o) + 1 + i as usize;
        self.region.set(at, word);
    }

    /// Writes the value that `word` represents to field `i` of the block to which the word `block`
    /// refers.
    #[inline(always)]
    pub fn set_word_at(&mut self, block: u64, i: u64, word: u64)
        requires position { (k : ℕ) × (k < length self.old)
            × (block ≡ word_of self.old (vals.Ref k))
            × (i < length (fields_of (object_at self.old k))) }
        requires valid { IsFieldWord self.old word }
        ensures { (k : ℕ) (v : Val) → k < length self.old → block ≡ word_of self.old (vals.Ref k)
            → i < length (fields_of (object_at self.old k)) → IsValue (length self.old) v
            → word ≡ word_of self.old v → self.new ≡ set_field self.old k i v }
    {
        self.region.set((block / 8) as usize + 1 + i as usize, word);
    }

    /// Returns byte `i` of a string.
    pub fn byte(&self, o: u64, i: u64) -> u8
        requires { i < length (bytes_of (object_at self.now o)) }
        ensures { result ≡ byte_at self.now o i }
    {
        let at = self.position(o) + 1 + i as usize / 8;
        self.region.get(at).to_le_bytes()[i as usize % 8]
    }

    /// Writes `b` to byte `i` of a string.
    pub fn fill_byte(&mut self, o: u64, i: u64, b: u8)
        requires { i < length (bytes_of (object_at self.old o)) }
        ensures { self.new ≡ set_byte self.old o i b }
    {
        let at = self.position(o) + 1 + i as usize / 8;
        let filled = with_byte(self.region.get(at), i as usize % 8, b);
        self.region.set(at, filled);
    }

    /// Returns the bits of double `i` of an array. A single double has only index 0.
    pub fn double(&self, o: u64, i: u64) -> u64
        requires { i < length (doubles_of (object_at self.now o)) }
        ensures { result ≡ double_at self.now o i }
    {
        let at = self.position(o) + 1 + i as usize;
        self.region.get(at)
    }

    /// Writes `bits` to double `i` of an array, or to a single double.
    pub fn fill_double(&mut self, o: u64, i: u64, bits: u64)
        requires { i < length (doubles_of (object_at self.old o)) }
        ensures { self.new ≡ set_double self.old o i bits }
    {
        let at = self.position(o) + 1 + i as usize;
        self.region.set(at, bits);
    }

    /// Removes the objects from number `count` on. The remaining objects must not refer to a
    /// removed object.
    pub fn truncate(&mut self, count: u64)
        requires in_range { count ≤ length self.old }
        requires closed { IsGraph (take count self.old) }
        ensures { self.new ≡ take count self.old }
    {
        if count < self.count() {
            let end = self.position(count);
            self.region.truncate(end);
            self.positions.truncate(count as usize);
        }
    }

    /// Removes all objects. The heap keeps the memory for new objects.
    pub fn clear(&mut self)
        ensures { self.new ≡ [] }
    {
        self.truncate(0);
    }

    /// Returns the offset of the header of object `o`, in words.
    #[inline(always)]
    fn position(&self, o: u64) -> usize
        requires { o < length self.now }
        ensures position { result ≡ position self.now o }
        ensures small { result + object_words (object_at self.now o) < 2 ^ 60 }
    {
        self.positions.get(o as usize) as usize
    }
}
