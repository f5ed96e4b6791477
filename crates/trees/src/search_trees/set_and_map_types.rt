//! Recognizes the types of sets and maps.

ghost use Rattle.std.specs.Prelude.{ℕ, ◌≡◌, ◌<◌, ◌⊎◌, ◌↔◌, false, [], ◌∷◌, length, map};
ghost use Rattle.std.specs.Prelude.{slice_index, slice_index_or, slice_get, Some, All, IsTrue};
ghost use Rattle.std.specs.Prelude.{IfOk};
ghost use Rattle.types_spec.specs.declared.types.shape.ShapeOf.TheVariants as shapes;
ghost use Rattle.trees.specs.search_trees.TreeType.{IsTreeNumber, names_with, node_with};
ghost use Rattle.trees.specs.search_trees.TreeType.{field_names, SameClass};
ghost use Rattle.trees.specs.search_trees.NodeType.{AreParts, IsNamed, IsNodeType};
ghost use Rattle.trees.specs.declared.search_trees.set_and_map_types.NodeRepresentation.TheVariants as layouts;

use base_data::model::Memory;
use base_data::model::list::List;
use std::alloc::Global;
use types_spec::types::names::{ConstrNames, Names};
use types_spec::types::shape::{Constr, ShapeOf};
use types_table::type_table::TypeTable;

/// The representation of a node. A node of a map has one field more than a node of a set: the datum
/// of its element.
#[derive(Clone, Copy)]
pub enum NodeRepresentation {
    Set,
    Map,
}

/// Returns, for each type of a table, true if it is the type of a set or of a map.
pub fn tree_types(alloc: Global, table: &TypeTable) -> Result<Vec<bool>, Memory>
    ensures { IfOk result (λ found. (t : ℕ)
        → IsTrue (slice_index_or found.items t false) ↔ IsTreeNumber table.now t) }
{
    let mut found = Vec::new(alloc);
    for number in 0..table.count() {
        found.push(is_tree_type(table, number))?;
    }
    Ok(found)
}

/// Returns true if a type is the type of a set or of a map.
fn is_tree_type(table: &TypeTable, number: usize) -> bool
    requires inside { number < length table.now.nodes }
    ensures { IsTrue result ↔ IsTreeNumber table.now number }
{
    match table.shape(number) {
        ShapeOf::Sum(constants, blocks) => {
            is_tree_sum(table, number, *constants, blocks.as_slice())
        }
        _ => false,
    }
}

/// Returns true if a type with the given constructors is the type of a set or of a map.
fn is_tree_sum(table: &TypeTable, number: usize, constants: u64, blocks: &[Constr<usize>]) -> bool
    requires shape { slice_get table.now.nodes number ≡ Some (shapes.Sum constants blocks.now) }
    ensures { IsTrue result ↔ IsTreeNumber table.now number }
{
    table.holds();
    if constants != 1 || blocks.len() != 1 {
        return false;
    }
    is_node_type(table, number, &blocks[0])
}

/// Returns true if `constr` is the constructor of the nodes of a set or of a map.
fn is_node_type(table: &TypeTable, number: usize, constr: &Constr<usize>) -> bool
    requires inside { number < length table.now.nodes }
    requires closed { All (λ i. i < length table.now.nodes) constr.now.fields }
    ensures { IsTrue result ↔ IsNodeType table.now number constr.now }
{
    if constr.mutable {
        return false;
    }
    let fields = constr.fields.as_slice();
    match fields.len() {
        4 => is_set_type(table, number, fields),
        5 => is_map_type(table, number, fields),
        _ => false,
    }
}

/// Returns true if the type has the names of a set, and its fields are the fields of a set's nodes.
fn is_set_type(table: &TypeTable, number: usize, fields: &[usize]) -> bool
    requires inside { number < length table.now.nodes }
    requires closed { All (λ i. i < length table.now.nodes) fields.now }
    requires four { length fields.now ≡ 4 }
    ensures { IsTrue result
        ↔ (IsNamed table.now number layouts.Set
        × AreParts table.now number (slice_index fields.now 0) (slice_index fields.now 1)
        (slice_index fields.now 2) (slice_index fields.now 3)) }
{
    let named = is_set_named(table.names(number));
    let parts = are_parts(table, number, fields[0], fields[1], fields[2], fields[3]);
    named && parts
}

/// Returns true if the type has the names of a map, and its fields are the fields of a map's nodes.
fn is_map_type(table: &TypeTable, number: usize, fields: &[usize]) -> bool
    requires inside { number < length table.now.nodes }
    requires closed { All (λ i. i < length table.now.nodes) fields.now }
    requires five { length fields.now ≡ 5 }
    ensures { IsTrue result
        ↔ (IsNamed table.now number layouts.Map
        × AreParts table.now number (slice_index fields.now 0) (slice_index fields.now 1)
        (slice_index fields.now 3) (slice_index fields.now 4)) }
{
    let named = is_map_named(table.names(number));
    let parts = are_parts(table, number, fields[0], fields[1], fields[3], fields[4]);
    named && parts
}

/// Returns true if the given types are the types of a node's parts: two trees, an element, and an
/// integer.
fn are_parts(
    table: &TypeTable,
    number: usize,
    left: usize,
    element: usize,
    right: usize,
    height: usize,
) -> bool
    requires number { number < length table.now.nodes }
    requires left { left < length table.now.nodes }
    requires element { element < length table.now.nodes }
    requires right { right < length table.now.nodes }
    requires height { height < length table.now.nodes }
    ensures { IsTrue result ↔ AreParts table.now number left element right height }
{
    let left_same = is_same(table, left, number);
    let right_same = is_same(table, right, number);
    let ordered = is_element(table.shape(element));
    let counted = is_number(table.shape(height));
    left_same && right_same && ordered && counted
}

/// Returns true if two types are equal.
fn is_same(table: &TypeTable, first: usize, second: usize) -> bool
    requires first { first < length table.now.nodes }
    requires second { second < length table.now.nodes }
    ensures { IsTrue result ↔ SameClass table.now first second }
{
    table.holds();
    table.class(first) == table.class(second)
}

/// Returns true if a shape is the shape of integers or of strings, which elements may have.
fn is_element(shape: &ShapeOf<usize>) -> bool
    ensures { IsTrue result ↔ ((shape.now ≡ shapes.AnyInt) ⊎ (shape.now ≡ shapes.Bytes false)) }
{
    match shape {
        ShapeOf::AnyInt => true,
        ShapeOf::Bytes(mutable) => !*mutable,
        _ => false,
    }
}

/// Returns true if a shape is the shape of integers.
fn is_number(shape: &ShapeOf<usize>) -> bool
    ensures { IsTrue result ↔ (shape.now ≡ shapes.AnyInt) }
{
    matches!(shape, ShapeOf::AnyInt)
}

/// Returns true if the names are the names of a set.
fn is_set_named(names: &Names) -> bool
    ensures { IsTrue result ↔ (names.now ≡ names_with (field_names layouts.Set)) }
{
    let fields = [
        b"l".as_slice(),
        b"v".as_slice(),
        b"r".as_slice(),
        b"h".as_slice(),
    ];
    is_tree_named(names, &fields)
}

/// Returns true if the names are the names of a map.
fn is_map_named(names: &Names) -> bool
    ensures { IsTrue result ↔ (names.now ≡ names_with (field_names layouts.Map)) }
{
    let fields = [
        b"l".as_slice(),
        b"v".as_slice(),
        b"d".as_slice(),
        b"r".as_slice(),
        b"h".as_slice(),
    ];
    is_tree_named(names, &fields)
}

/// Returns true if the names are `Empty`, and `Node` with the fields `fields`.
fn is_tree_named(names: &Names, fields: &[&[u8]]) -> bool
    ensures { IsTrue result ↔ (names.now ≡ names_with (map (λ name. name.now) fields.now)) }
{
    let empty = same_names(names.constants.as_slice(), &[b"Empty".as_slice()]);
    let node = is_node_named(names.constructors.as_slice(), fields);
    empty && node && names.fields.len() == 0 && names.tags.len() == 0
}

/// Returns true if the only constructor is `Node` with the fields `fields`.
fn is_node_named(constructors: &[ConstrNames], fields: &[&[u8]]) -> bool
    ensures { IsTrue result
        ↔ (constructors.now ≡ node_with (map (λ name. name.now) fields.now) ∷ []) }
{
    if constructors.len() != 1 {
        return false;
    }
    let named = is_name(&constructors[0].name, b"Node");
    let same = same_names(constructors[0].fields.as_slice(), fields);
    named && same
}

/// Returns true if the name `own` equals the name `wanted`.
fn is_name(own: &List<u8>, wanted: &[u8]) -> bool
    ensures { IsTrue result ↔ (own.now ≡ wanted.now) }
{
    own.as_slice() == wanted
}

/// Returns true if the names `own` equal the names `wanted`.
fn same_names(own: &[List<u8>], wanted: &[&[u8]]) -> bool
    ensures { IsTrue result ↔ (own.now ≡ map (λ name. name.now) wanted.now) }
{
    if own.len() != wanted.len() {
        return false;
    }
    for i in 0..own.len() {
        if own[i].as_slice() != wanted[i] {
            return false;
        }
    }
    true
}
