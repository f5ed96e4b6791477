//! Finds what is wrong with a pair.

ghost use Rattle.std.specs.Prelude.{◌≡◌, ◌<◌, length, MatchOption};
ghost use Rattle.base_data.specs.declared.model.value.Val.TheVariants as vals;
ghost use Rattle.types_spec.specs.types.Table.{typed_fields};
ghost use Rattle.marshal_heap.specs.heap.Heap.{word_of};
ghost use Rattle.check_heap.specs.fits.Needs.{needs_in};
ghost use Rattle.check_heap.specs.scan.TypeRows.{table_in};
ghost use Rattle.cert_verify.specs.certificate.Testing.{IsFrequent, HoldsAll, IsFirstMissing};
ghost use Rattle.cert_verify.specs.certificate.Testing.{IsRightAt, AreRight};
ghost use Rattle.cert_verify.specs.certificate.Testing.{IsFirstAt};

use crate::certificate::held::{is_elsewhere, is_held};
use crate::certificate::stated_pairs::StatedPairs;
use crate::certificate::verified::Why;
use base_data::model::value::Val;
use check_heap::fits::{Needs, is_asked, is_mutable, known_needs};
use check_heap::scan::fits_type;
use std::collections::BTreeSet;

/// Returns the first required field of the object with this word that is not held.
fn first_missing(
    stated: StatedPairs<'_>,
    frequent: &BTreeSet<(u64, usize)>,
    _object: u64,
    word: u64,
    _ty: usize,
    needs: Needs<'_>,
) -> Option<u64>
    requires object { _object < length stated.heap.now }
    requires word { word ≡ word_of stated.heap.now (vals.Ref _object) }
    requires ty { _ty < length stated.fitting.table.now.nodes }
    requires frequent { IsFrequent (table_in stated.fitting) stated.pairs.now frequent.now }
    requires needs { typed_fields (table_in stated.fitting) stated.heap.now (vals.Ref _object) _ty
        ≡ needs_in needs }
    ensures { MatchOption result (HoldsAll (table_in stated.entry.fitting) stated.entry.heap.now
        stated.entry.pairs.now _object _ty) (IsFirstMissing (table_in stated.entry.fitting)
        stated.entry.heap.now stated.entry.pairs.now _object _ty) }
{
    stated.fitting.table.holds();
    if needs.len() == 0 {
        return None;
    }
    let _count = stated.heap.count();
    let words = stated.heap.fields_at(word);
    for k in 0..needs.len() {
        let (field, ty) = needs.get(k);
        if !is_asked(stated.fitting.table.shape(ty)) {
            continue;
        }
        let value = words[field as usize];
        if !is_held(stated, frequent, value, ty) {
            return Some(field);
        }
    }
    None
}

/// Returns the first fault of pair `i`. The objects and types of all pairs must exist, and the
/// pairs before pair `i` must be right.
pub fn test_pair(
    stated: StatedPairs<'_>,
    frequent: &BTreeSet<(u64, usize)>,
    i: usize,
) -> Option<Why>
    requires in_range { i < length stated.pairs.now }
    requires frequent { IsFrequent (table_in stated.fitting) stated.pairs.now frequent.now }
    requires before { AreRight (table_in stated.fitting) stated.heap.now stated.pairs.now i }
    ensures { MatchOption result (IsRightAt (table_in stated.entry.fitting) stated.entry.heap.now
        stated.entry.pairs.now i) (IsFirstAt (table_in stated.entry.fitting) stated.entry.heap.now
        stated.entry.pairs.now i) }
{
    stated.fitting.table.holds();
    let (object, number) = stated.pairs.at(i);
    let ty = number as usize;
    let word = stated.heap.word(Val::Ref(object));
    if !fits_type(stated.heap, stated.fitting, ty, word) {
        return Some(Why::Unfit(i as u64));
    }
    let Some(needs) = known_needs(stated.heap, object, stated.fitting.table.shape(ty)) else {
        return Some(Why::Unfit(i as u64));
    };
    if let Some(field) = first_missing(stated, frequent, object, word, ty, needs) {
        return Some(Why::Need(i as u64, field));
    }
    if is_mutable(stated.heap, object, stated.fitting.table.shape(ty))
        && is_elsewhere(stated.fitting.table, stated.pairs, i, object, ty)
    {
        return Some(Why::TwoTypes(i as u64));
    }
    None
}
