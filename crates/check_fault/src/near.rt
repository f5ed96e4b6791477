//! Finds the first type mismatch of a small value if the mismatch is near the root. The search
//! takes few tests and allocates no memory.

ghost use Rattle.std.specs.Prelude.{ℕ, ◌≡◌, ◌<◌, ◌≤◌, ◌∷◌, [], None, length, IfSome, MatchOption};
ghost use Rattle.base_data.specs.model.Graph.{IsValue};
ghost use Rattle.types_spec.specs.types.Fault.{field_of, type_of_field, IsMismatch};
ghost use Rattle.types_spec.specs.types.Table.{table_shapes, typed_fields};
ghost use Rattle.check_heap.specs.fits.Needs.{needs_in};
ghost use Rattle.types_table.specs.type_table.Made.{table_of};
ghost use Rattle.check_fault.specs.Near.{NoneOf, IsFirstOf, IsNear, fields_of_kind};
ghost use Rattle.check_fault.specs.Tried.{typed_in, needed_in, step_from, IsMismatchOf, LeadsTo};

use crate::candidate_fault::fits;
use crate::path_steps::field;
use crate::tried::Tried;
use base_data::model::value::Val;
use check_heap::fits::{Needs, is_asked, needs_of};
use marshal_heap::heap::{Heap, Kind, Rooted};
use types_table::type_table::TypeTable;

/// The maximum number of 64-bit words of a small value.
const SMALL: u64 = 64;

/// The maximum number of 64-bit words of a tiny value, whose fields of fields are tested. A tiny
/// value has at most 49 fields of fields.
const TINY: u64 = 16;

/// The path to a value near the root.
#[derive(Clone, Copy)]
pub enum NearPath {
    Root,
    /// A field of the root.
    Field(u64),
    /// A field of a field of the root.
    Part(u64, u64),
}

/// A type mismatch near the root: the path, the value at the path, and the number of the required
/// type at the path.
#[derive(Clone, Copy)]
pub struct Near {
    pub way: NearPath,
    pub value: Val,
    pub at: usize,
}

/// A field that does not match its type: the index of the field, the value of the field, and the
/// number of the field's type.
#[derive(Clone, Copy)]
struct UnfitField {
    field: u64,
    value: Val,
    at: usize,
}

/// Returns the first fault of a small value if the fault is a type mismatch at the root or in a
/// field of the root. In a tiny value, fields of fields are tested too. If the result is `None`,
/// nothing is known.
pub fn find_near(value: &Rooted<'_>, table: &TypeTable) -> Option<Near>
    ensures { IfSome result (IsNear (table_of table.now) value.now.heap.now value.now.root) }
{
    table.holds();
    if value.heap.words() > SMALL {
        return None;
    }
    let Some(needs) = needs_of(value.heap, value.root, table.shape(0)) else {
        return Some(Near {
            way: NearPath::Root,
            value: value.root,
            at: 0,
        });
    };
    let tried = Tried {
        heap: value.heap,
        table,
        value: value.root,
        at: 0,
    };
    match unfit_field(&tried, needs) {
        Some(unfit) => Some(Near {
            way: NearPath::Field(unfit.field),
            value: unfit.value,
            at: unfit.at,
        }),
        None => near_part(value, table, needs),
    }
}

/// Returns the first fault of a tiny value if the fault is a type mismatch in a field of a field.
/// The root and the fields of the root must match their types.
fn near_part(value: &Rooted<'_>, table: &TypeTable, needs: Needs<'_>) -> Option<Near>
    requires needs { needs_in needs
        ≡ typed_fields (table_of table.now) value.now.heap.now value.now.root 0 }
    requires fits { (table_shapes (table_of table.now)).fits value.now.heap.now value.now.root 0 }
    requires fields { NoneOf
        (IsMismatch (table_shapes (table_of table.now)) value.now.heap.now value.now.root 0) 1 }
    ensures { IfSome result (IsNear (table_of table.now) value.now.heap.now value.now.root) }
{
    table.holds();
    if value.heap.words() > TINY {
        return None;
    }
    let tried = Tried {
        heap: value.heap,
        table,
        value: value.root,
        at: 0,
    };
    match unfit_part(&tried, needs) {
        Some((i, unfit)) => Some(Near {
            way: NearPath::Part(i, unfit.field),
            value: unfit.value,
            at: unfit.at,
        }),
        None => None,
    }
}

/// Returns the number of fields of an object of this kind. Only blocks have fields.
fn fields_in(kind: Kind) -> u64
    ensures { result ≡ fields_of_kind kind }
{
    match kind {
        Kind::Block(_, size) => size,
        _ => 0,
    }
}

/// Returns an upper bound on the number of fields of a value.
fn field_count(heap: &Heap, value: Val) -> u64
    requires { IsValue (length heap.now) value }
    ensures { (i : ℕ) → result ≤ i → field_of heap.now value i ≡ None }
{
    match value {
        Val::Ref(object) => fields_in(heap.kind(object)),
        _ => 0,
    }
}

/// If field `i` of a value has a type, returns the type, which may be a wildcard. `needs` are the
/// value's typed fields.
fn type_in(tried: &Tried<'_>, needs: Needs<'_>, i: u64) -> Option<usize>
    requires needs { needs_in needs ≡ typed_in tried.now }
    ensures is { result ≡ type_of_field (typed_in tried.now) i }
    ensures number { IfSome result (λ ty. ty < length tried.now.table.now.nodes) }
{
    tried.table.holds();
    needs.type_of(i)
}

/// Returns the required type of field `i`. If the type of the field is a wildcard, no type is
/// required.
fn needed_type(tried: &Tried<'_>, needs: Needs<'_>, i: u64) -> Option<usize>
    requires needs { needs_in needs ≡ typed_in tried.now }
    ensures is { result ≡ type_of_field (needed_in tried.now) i }
    ensures number { IfSome result (λ ty. ty < length tried.now.table.now.nodes) }
{
    let Some(ty) = type_in(tried, needs, i) else {
        return None;
    };
    if is_asked(tried.table.shape(ty)) {
        Some(ty)
    } else {
        None
    }
}

/// Returns the value of field `i` and the number of the field's required type.
fn part(tried: &Tried<'_>, needs: Needs<'_>, i: u64) -> Option<(Val, usize)>
    requires needs { needs_in needs ≡ typed_in tried.now }
    ensures position { result ≡ step_from tried.now i }
    ensures value { IfSome result (λ position. IsValue (length tried.now.heap.now) position.0) }
    ensures number { IfSome result (λ position. position.1 < length tried.now.table.now.nodes) }
{
    let ty = needed_type(tried, needs, i)?;
    let next = field(tried.heap, tried.value, i)?;
    Some((next, ty))
}

/// Returns field `i` if the field does not match its type.
fn unfit_at(tried: &Tried<'_>, needs: Needs<'_>, i: u64) -> Option<UnfitField>
    requires needs { needs_in needs ≡ typed_in tried.now }
    ensures { MatchOption result (¬ IsMismatchOf tried.now (i ∷ []))
        (λ unfit. (unfit.field ≡ i)
        × IsMismatchOf tried.now (i ∷ [])
        × LeadsTo tried.now (i ∷ []) unfit.value unfit.at) }
{
    let Some((value, at)) = part(tried, needs, i) else {
        return None;
    };
    let next = Tried {
        heap: tried.heap,
        table: tried.table,
        value,
        at,
    };
    if fits(&next) {
        return None;
    }
    Some(UnfitField {
        field: i,
        value,
        at,
    })
}

/// Returns the first field of a value that does not match its type. `needs` are the value's typed
/// fields.
fn unfit_field(tried: &Tried<'_>, needs: Needs<'_>) -> Option<UnfitField>
    requires needs { needs_in needs ≡ typed_in tried.now }
    ensures { MatchOption result (NoneOf (IsMismatchOf tried.now) 1)
        (λ unfit. IsFirstOf (IsMismatchOf tried.now) (unfit.field ∷ [])
        × LeadsTo tried.now (unfit.field ∷ []) unfit.value unfit.at) }
{
    let count = field_count(tried.heap, tried.value);
    for i in 0..count {
        if let Some(unfit) = unfit_at(tried, needs, i) {
            return Some(unfit);
        }
    }
    None
}

/// Returns the first field of a value that does not match its type, if the value's typed fields are
/// not yet known.
fn unfit_field_of(tried: &Tried<'_>) -> Option<UnfitField>
    ensures { MatchOption result (NoneOf (IsMismatchOf tried.now) 1)
        (λ unfit. IsFirstOf (IsMismatchOf tried.now) (unfit.field ∷ [])
        × LeadsTo tried.now (unfit.field ∷ []) unfit.value unfit.at) }
{
    let Some(needs) = needs_of(tried.heap, tried.value, tried.table.shape(tried.at)) else {
        return None;
    };
    unfit_field(tried, needs)
}

/// Returns the first field inside field `i` that does not match its type.
fn unfit_in(tried: &Tried<'_>, needs: Needs<'_>, i: u64) -> Option<UnfitField>
    requires needs { needs_in needs ≡ typed_in tried.now }
    ensures { MatchOption result (NoneOf (λ path. IsMismatchOf tried.now (i ∷ path)) 1)
        (λ unfit. IsFirstOf (λ path. IsMismatchOf tried.now (i ∷ path)) (unfit.field ∷ [])
        × LeadsTo tried.now (i ∷ unfit.field ∷ []) unfit.value unfit.at) }
{
    let Some((value, at)) = part(tried, needs, i) else {
        return None;
    };
    let next = Tried {
        heap: tried.heap,
        table: tried.table,
        value,
        at,
    };
    unfit_field_of(&next)
}

/// Returns the first field of a field that does not match its type. The number in the result is the
/// index of the outer field.
fn unfit_part(tried: &Tried<'_>, needs: Needs<'_>) -> Option<(u64, UnfitField)>
    requires needs { needs_in needs ≡ typed_in tried.now }
    ensures { MatchOption result (NoneOf (IsMismatchOf tried.now) 2)
        (λ two. IsFirstOf (IsMismatchOf tried.now) (two.0 ∷ two.1.field ∷ [])
        × LeadsTo tried.now (two.0 ∷ two.1.field ∷ []) two.1.value two.1.at) }
{
    let count = field_count(tried.heap, tried.value);
    for i in 0..count {
        if let Some(unfit) = unfit_in(tried, needs, i) {
            return Some((i, unfit));
        }
    }
    None
}
