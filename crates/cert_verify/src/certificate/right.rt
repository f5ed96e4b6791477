//! Fast path for accepting pairs. The fast path does not find out what is wrong with pairs that it
//! does not accept. The fast path tests whether an object fits a type only at the pairs of the
//! object, not at each reference to the object.

ghost use Rattle.std.specs.Prelude.{ℕ, ◌≡◌, ◌<◌, false, length, slice_get, Some, Contains, IsTrue};
ghost use Rattle.std.specs.Bool.{OnTrue};
ghost use Rattle.base_data.specs.model.Graph.{IsValue};
ghost use Rattle.base_data.specs.declared.model.value.Val.TheVariants as vals;
ghost use Rattle.marshal_heap.specs.heap.Heap.{word_of, IsFieldWord, IsReferenceWord};
ghost use Rattle.types_spec.specs.types.Fitting.{is_mutable_block};
ghost use Rattle.types_spec.specs.types.Table.{table_shapes, typed_fields, is_asked_in};
ghost use Rattle.types_table.specs.type_table.Made.{table_of};
ghost use Rattle.check_heap.specs.fits.Needs.{needs_in};
ghost use Rattle.check_heap.specs.scan.TypeRows.{table_in};
ghost use Rattle.cert_verify.specs.certificate.AcceptedEntry.{AreAccepted};
ghost use Rattle.cert_verify.specs.certificate.Testing.{IsElsewhere, StandsAt, HoldsAll, AreRight};
ghost use Rattle.cert_verify.specs.certificate.Right.{AllFit, IsBacked, IsWorded, IsRightWithAll};

use crate::certificate::held::{is_among_few, is_elsewhere_behind};
use crate::certificate::stated_pairs::StatedPairs;
use base_data::model::value::Val;
use cert_format::CertificatePairs;
use check_heap::fits::{Needs, is_asked, is_mutable, known_needs};
use check_heap::scan::fits_type;
use types_spec::types::shape::{Constr, ShapeOf};
use types_table::type_table::TypeTable;

/// A pair, and the word that refers to the object of the pair.
#[derive(Clone, Copy)]
pub struct Worded {
    pub object: u64,
    pub ty: usize,
    pub word: u64,
}

/// Returns true only if the pairs are accepted for a value at type 0. May return false for accepted
/// pairs, for example if an object has more than 16 pairs, or if a mutable object is at two equal
/// types.
pub fn are_accepted(root: Val, stated: StatedPairs<'_>) -> bool
    requires value { IsValue (length stated.heap.now) root }
    ensures { OnTrue result (AreAccepted (table_shapes (table_in stated.entry.fitting))
        stated.entry.heap.now root 0 stated.entry.pairs.now) }
{
    stated.fitting.table.holds();
    let ty = stated.fitting.table.root();
    if stated.pairs.len() == 0 || !is_asked(stated.fitting.table.shape(ty)) || !are_right(stated) {
        return false;
    }
    let near = pair_at(stated, 0);
    is_backed(stated, near, stated.heap.word(root), ty)
}

/// Returns true only if all pairs are right. May return false for right pairs. Examples are an
/// object with more than 16 pairs, and a mutable object at two equal types.
fn are_right(stated: StatedPairs<'_>) -> bool
    requires some { 0 < length stated.pairs.now }
    ensures { OnTrue result (AreRight (table_in stated.entry.fitting) stated.entry.heap.now
        stated.entry.pairs.now (length stated.entry.pairs.now)) }
{
    let mut own = pair_at(stated, 0);
    for i in 0..stated.pairs.len() {
        let next = pair_at(stated, i + 1);
        if !is_right(stated, i, own, next) {
            return false;
        }
        own = next;
    }
    true
}

/// Returns the index `i` if it is less than `len`, and the last index otherwise.
#[inline(always)]
fn position_or_last(len: usize, i: usize) -> usize
    requires some { 0 < len }
    ensures within { result < len }
    ensures own { i < len → result ≡ i }
{
    if i < len { i } else { len - 1 }
}

/// Returns pair `i` and the word of its object. If no pair has the index `i`, returns the last
/// pair.
#[inline(always)]
fn pair_at(stated: StatedPairs<'_>, i: usize) -> Worded
    requires some { 0 < length stated.pairs.now }
    ensures { IsWorded stated.entry.heap.now stated.entry.pairs.now i result }
{
    let position = position_or_last(stated.pairs.len(), i);
    let (object, number) = stated.pairs.at(position);
    Worded {
        object,
        ty: number as usize,
        word: stated.heap.word(Val::Ref(object)),
    }
}

/// Returns true only if pair `i` fits, and is right if all pairs fit. `near` is a neighbouring
/// pair, which often has the object of the last field.
#[inline(always)]
fn is_right(stated: StatedPairs<'_>, i: usize, own: Worded, near: Worded) -> bool
    requires in_range { i < length stated.pairs.now }
    requires own { IsWorded stated.heap.now stated.pairs.now i own }
    requires near { StandsAt (table_in stated.fitting) stated.heap.now stated.pairs.now near.word
        near.ty }
    ensures { OnTrue result (IsRightWithAll (table_in stated.entry.fitting) stated.entry.heap.now
        stated.entry.pairs.now i) }
{
    if !fits_type(stated.heap, stated.fitting, own.ty, own.word) {
        return false;
    }
    let shape = stated.fitting.table.shape(own.ty);
    match shape {
        ShapeOf::Sum(_, blocks) if is_one_constant(blocks.as_slice()) => {
            holds_needs(stated, i, own, near, shape)
        }
        ShapeOf::Product(false, _) => holds_needs(stated, i, own, near, shape),
        ShapeOf::Bytes(false) => holds_needs(stated, i, own, near, shape),
        ShapeOf::Double => holds_needs(stated, i, own, near, shape),
        _ => is_any_right(stated, i, own, near, shape),
    }
}

/// Returns true only if pair `i`, which fits, is right if all pairs fit. The shape of the type may
/// be any shape.
#[inline(never)]
fn is_any_right(
    stated: StatedPairs<'_>,
    i: usize,
    own: Worded,
    near: Worded,
    shape: &ShapeOf<usize>,
) -> bool
    requires in_range { i < length stated.pairs.now }
    requires own { IsWorded stated.heap.now stated.pairs.now i own }
    requires near { StandsAt (table_in stated.fitting) stated.heap.now stated.pairs.now near.word
        near.ty }
    requires shape { slice_get stated.fitting.table.now.nodes own.ty ≡ Some shape.now }
    requires fits { (table_shapes (table_in stated.fitting)).fits stated.heap.now (vals.Ref
        own.object) own.ty }
    ensures { OnTrue result (IsRightWithAll (table_in stated.entry.fitting) stated.entry.heap.now
        stated.entry.pairs.now i) }
{
    stated.fitting.table.holds();
    if is_mutable(stated.heap, own.object, shape)
        && !is_at_one_type(stated.fitting.table, stated.pairs, i, own.object, own.ty)
    {
        return false;
    }
    holds_needs(stated, i, own, near, shape)
}

/// Returns true only if pair `i` is right if all pairs fit. Pair `i` must fit and, if its object is
/// mutable, be at one type. The function is inlined for each kind of immutable shape.
#[inline(always)]
fn holds_needs(
    stated: StatedPairs<'_>,
    _i: usize,
    own: Worded,
    near: Worded,
    shape: &ShapeOf<usize>,
) -> bool
    requires in_range { _i < length stated.pairs.now }
    requires own { IsWorded stated.heap.now stated.pairs.now _i own }
    requires near { StandsAt (table_in stated.fitting) stated.heap.now stated.pairs.now near.word
        near.ty }
    requires shape { slice_get stated.fitting.table.now.nodes own.ty ≡ Some shape.now }
    requires fits { (table_shapes (table_in stated.fitting)).fits stated.heap.now (vals.Ref
        own.object) own.ty }
    requires one_type { (u : ℕ) → Contains stated.pairs.now (own.object, u)
        → (table_shapes (table_in stated.fitting)).mutable stated.heap.now own.object own.ty
        → (table_shapes (table_in stated.fitting)).equal own.ty u }
    ensures { OnTrue result (IsRightWithAll (table_in stated.entry.fitting) stated.entry.heap.now
        stated.entry.pairs.now _i) }
{
    let Some(needs) = known_needs(stated.heap, own.object, shape) else {
        return false;
    };
    let (object, ty, word) = (own.object, own.ty, own.word);
    match needs {
        Needs::Listed(types) => each_backed(stated, object, ty, word, near, Needs::Listed(types)),
        _ => each_backed(stated, object, ty, word, near, needs),
    }
}

/// Returns true only if exactly one constructor has arguments, and the blocks of this constructor
/// are immutable.
#[inline(always)]
fn is_one_constant(blocks: &[Constr<usize>]) -> bool
    ensures { OnTrue result
        ((tag : ℕ) → is_mutable_block (slice_get blocks.now tag) ≡ false) }
{
    blocks.len() == 1 && !blocks[0].mutable
}

/// Returns true only if no pair has the object of pair `i` at an unequal type. Returns false if
/// pair `i` is not the first pair of its object.
#[inline(never)]
fn is_at_one_type(
    table: &TypeTable,
    pairs: &CertificatePairs,
    i: usize,
    object: u64,
    ty: usize,
) -> bool
    requires at { slice_get pairs.now i ≡ Some (object, ty) }
    requires there { (k o t : ℕ) → slice_get pairs.now k ≡ Some (o, t)
        → t < length table.now.classes }
    ensures { OnTrue result (¬ IsElsewhere (table_of table.now) pairs.now object ty) }
{
    let _many = pairs.len();
    if i > 0 {
        let (before, _) = pairs.at(i - 1);
        if before == object {
            return false;
        }
    }
    !is_elsewhere_behind(table, pairs, i + 1, object, ty)
}

/// Returns true only if the object with this word holds all required fields at a type, given that
/// all pairs fit. The function is inlined for each kind of required fields.
#[inline(always)]
fn each_backed(
    stated: StatedPairs<'_>,
    _object: u64,
    _ty: usize,
    word: u64,
    near: Worded,
    needs: Needs<'_>,
) -> bool
    requires object { _object < length stated.heap.now }
    requires word { word ≡ word_of stated.heap.now (vals.Ref _object) }
    requires ty { _ty < length stated.fitting.table.now.nodes }
    requires needs { typed_fields (table_in stated.fitting) stated.heap.now (vals.Ref _object) _ty
        ≡ needs_in needs }
    requires near { StandsAt (table_in stated.fitting) stated.heap.now stated.pairs.now near.word
        near.ty }
    ensures { OnTrue result (AllFit (table_in stated.entry.fitting) stated.entry.heap.now
        stated.entry.pairs.now → HoldsAll (table_in stated.entry.fitting) stated.entry.heap.now
        stated.entry.pairs.now _object _ty) }
{
    stated.fitting.table.holds();
    if needs.len() == 0 {
        return true;
    }
    let _count = stated.heap.count();
    let words = stated.heap.fields_at(word);
    for k in 0..needs.len() {
        let (field, ty) = needs.get(k);
        let value = words[field as usize];
        if !is_backed(stated, near, value, ty) {
            return false;
        }
    }
    true
}

/// Suppose the result is true, all pairs fit and the type is not a wildcard. Then the value of the
/// word is held at the type.
#[inline(always)]
fn is_backed(stated: StatedPairs<'_>, near: Worded, word: u64, ty: usize) -> bool
    requires word { IsFieldWord stated.heap.now word }
    requires ty { ty < length stated.fitting.table.now.nodes }
    requires near { StandsAt (table_in stated.fitting) stated.heap.now stated.pairs.now near.word
        near.ty }
    ensures { OnTrue result (IsBacked (table_in stated.entry.fitting) stated.entry.heap.now
        stated.entry.pairs.now word ty) }
{
    stated.fitting.table.holds();
    let _count = stated.heap.count();
    if word % 8 != 0 {
        return fits_type(stated.heap, stated.fitting, ty, word);
    }
    if word == near.word && ty == near.ty {
        return true;
    }
    is_listed(stated, word, ty)
}

/// Returns true only if some pair has the object of a word at an equal type, or if the type is a
/// wildcard.
#[inline(always)]
fn is_listed(stated: StatedPairs<'_>, word: u64, ty: usize) -> bool
    requires word { IsReferenceWord stated.heap.now word }
    requires ty { ty < length stated.fitting.table.now.nodes }
    ensures { OnTrue result (IsTrue (is_asked_in (table_in stated.entry.fitting) ty)
        → StandsAt (table_in stated.entry.fitting) stated.entry.heap.now stated.entry.pairs.now
        word ty) }
{
    stated.fitting.table.holds();
    let object = stated.heap.number(word);
    if is_at_own_position(stated.pairs, object, ty) {
        return true;
    }
    if !is_asked(stated.fitting.table.shape(ty)) {
        return true;
    }
    is_among_few(stated.fitting.table, stated.pairs, object, ty)
}

/// Returns true only if the pair is at the index equal to its object number.
#[inline(always)]
fn is_at_own_position(pairs: &CertificatePairs, object: u64, ty: usize) -> bool
    ensures { OnTrue result (Contains pairs.now (object, ty)) }
{
    let position = object as usize;
    if position >= pairs.len() {
        return false;
    }
    let (own, number) = pairs.at(position);
    if own != object || number as usize != ty {
        return false;
    }
    true
}
