//! Appends the objects of items, and the list of the items, to a heap.

ghost use Rattle.std.specs.Prelude.{◌≡◌, ◌++◌, ◌∷◌, [], ◌<◌, ◌≤◌, length, All, IfOk, OnOk};
ghost use Rattle.base_data.specs.model.Graph.{IsValue};
ghost use Rattle.base_data.specs.declared.model.value.Obj.TheVariants as objects;
ghost use Rattle.marshal_heap.specs.heap.Heap.{Appends};
ghost use Rattle.cmd_gen.specs.generator.Generated.{objects_of, value_of, listed};
ghost use Rattle.cmd_gen.specs.generator.Sound.{IsItem};

use crate::generator::generated_item::GeneratedItem;
use base_data::model::Memory;
use base_data::model::value::Val;
use marshal_heap::heap::Heap;

/// Appends a block with one field.
fn add_one(heap: &mut Heap, tag: u8, v: Val) -> Result<u64, Memory>
    requires tag { tag ≤ 243 }
    requires valid { IsValue (length heap.old) v }
    ensures { Appends heap.old heap.new (objects.Block tag (v ∷ [])) result }
{
    let words = [heap.word(v)];
    heap.add_block_of(tag, &words)
}

/// Appends a block with two fields.
fn add_two(heap: &mut Heap, tag: u8, v: Val, w: Val) -> Result<u64, Memory>
    requires tag { tag ≤ 243 }
    requires first { IsValue (length heap.old) v }
    requires second { IsValue (length heap.old) w }
    ensures { Appends heap.old heap.new (objects.Block tag (v ∷ w ∷ [])) result }
{
    let words = [heap.word(v), heap.word(w)];
    heap.add_block_of(tag, &words)
}

/// Appends the objects of an item to the heap, and returns the value of the item. `values` contains
/// the values of the earlier items.
pub fn add_item(heap: &mut Heap, values: &[Val], item: GeneratedItem) -> Result<Val, Memory>
    requires values { All (IsValue (length heap.old)) values.now }
    requires item { IsItem (length values.now) item }
    ensures objects { OnOk result
        (heap.new ≡ heap.old ++ objects_of (length heap.old) values.now item) }
    ensures value { IfOk result (λ v. v ≡ value_of (length heap.old) item) }
    ensures valid { IfOk result (IsValue (length heap.new)) }
{
    match item {
        GeneratedItem::Nil => Ok(Val::Int(0)),
        GeneratedItem::Num(n) => Ok(Val::Ref(add_one(heap, 0, Val::Int(n as i64))?)),
        GeneratedItem::Text(len, byte) => add_text(heap, len as usize, byte),
        GeneratedItem::Pair(i, j) => {
            let (v, w) = (values[i as usize], values[j as usize]);
            Ok(Val::Ref(add_two(heap, 2, v, w)?))
        }
        GeneratedItem::Cell(i) => {
            let of = add_one(heap, 0, values[i as usize])?;
            Ok(Val::Ref(add_one(heap, 3, Val::Ref(of))?))
        }
    }
}

/// Appends the objects of a `Text` item with a string of `len` bytes.
fn add_text(heap: &mut Heap, len: usize, byte: u8) -> Result<Val, Memory>
    requires { len < 40 }
    ensures objects { OnOk result
        (heap.new ≡ heap.old ++ objects_of (length heap.old) [] (GeneratedItem.Text len byte)) }
    ensures value { IfOk result
        (λ v. v ≡ value_of (length heap.old) (GeneratedItem.Text len byte)) }
    ensures valid { IfOk result (IsValue (length heap.new)) }
{
    let content = [byte; 40];
    let of = heap.add_bytes_of(&content[..len])?;
    Ok(Val::Ref(add_one(heap, 1, Val::Ref(of))?))
}

/// Appends the cells of the OCaml list of these values, the last cell first. Returns the list.
pub fn add_list(heap: &mut Heap, values: &[Val]) -> Result<Val, Memory>
    requires { All (IsValue (length heap.old)) values.now }
    ensures listed { IfOk result (λ list. (heap.new, list) ≡ listed heap.old values.now) }
    ensures valid { IfOk result (IsValue (length heap.new)) }
{
    let mut list = Val::Int(0);
    for done in 0..values.len() {
        let v = values[values.len() - 1 - done];
        list = Val::Ref(add_two(heap, 0, v, list)?);
    }
    Ok(list)
}
