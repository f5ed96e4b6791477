//! Numbers the items of brackets: each item gets the number of its type in a store.

ghost use Rattle.std.specs.Prelude.{◌++◌, All, IfOk, OnOk, List as Seq};
ghost use Rattle.std.specs.List.{flat_map};
ghost use Rattle.types_spec.specs.types.TypeNodes.{types_of};
ghost use Rattle.types_spec.specs.types.Occurrence.{PlacedItem};
ghost use Rattle.types_resolve.specs.scope.TypeBrackets.{items_known, type_known, all_known};
ghost use Rattle.types_resolve.specs.scope.TypeBrackets.{IsOrdered};
ghost use Rattle.types_table.specs.store.Held.{Grows};
ghost use Rattle.types_table.specs.store.Instance.{HasNumbers};
ghost use Rattle.types_wellformed.specs.head_rules.NumberedTypes.{AreNumbered, AreAllNumbered};

use crate::head_rules::head_nodes::HeadNodes;
use crate::head_rules::item::{NumberedItem, number_item};
use base_data::model::Memory;
use base_data::model::list::List;
use std::alloc::Global;
use types_resolve::scope::{BracketItem, TypeBrackets};
use types_table::store::TypeStore;

/// Returns the items of a bracket, each with the number of its type.
fn number_items(
    alloc: Global,
    types: &mut TypeStore,
    nodes: &HeadNodes<'_>,
    numbers: &[usize],
    items: &[BracketItem],
) -> Result<List<NumberedItem>, Memory>
    requires numbers { HasNumbers types.old (types_of nodes.now.all.now) numbers.now }
    ensures grown { Grows types.old types.new }
    ensures ok { IfOk result
        (λ all. AreNumbered types.new all (items_known (types_of nodes.now.all.now) items.now)) }
{
    let mut all = List::new(alloc);
    for item in items {
        all.push(number_item(types, nodes, numbers, item)?)?;
    }
    Ok(all)
}

/// Appends the brackets of a type, with numbered items.
fn write_type(
    alloc: Global,
    types: &mut TypeStore,
    brackets: &mut List<List<NumberedItem>>,
    found: &TypeBrackets<'_>,
) -> Result<(), Memory>
    requires { IsOrdered found.now }
    ensures grown { Grows types.old types.new }
    ensures ok { OnOk result
        ((all : Seq (Seq PlacedItem)) → AreAllNumbered types.old brackets.old all
        → AreAllNumbered types.new brackets.new (all ++ type_known found.now)) }
{
    let nodes = HeadNodes { all: found.nodes };
    let numbers = types.add_nodes(alloc, nodes.all)?;
    for items in found.brackets.as_slice() {
        brackets.push(number_items(alloc, types, &nodes, numbers.as_slice(), items.as_slice())?)?;
    }
    Ok(())
}

/// Appends the brackets of a list of types, with numbered items.
fn write_types(
    alloc: Global,
    types: &mut TypeStore,
    brackets: &mut List<List<NumberedItem>>,
    found: &[TypeBrackets<'_>],
) -> Result<(), Memory>
    requires { All IsOrdered found.now }
    ensures grown { Grows types.old types.new }
    ensures ok { OnOk result
        ((all : Seq (Seq PlacedItem)) → AreAllNumbered types.old brackets.old all
        → AreAllNumbered types.new brackets.new (all ++ all_known found.now)) }
{
    for inside in found {
        write_type(alloc, types, brackets, inside)?;
    }
    Ok(())
}

/// Returns the brackets of a list of types, one after another. The number of an item is the number
/// of the bracket that contains only the item. The function adds each node of the types once.
pub fn number_brackets(
    alloc: Global,
    types: &mut TypeStore,
    found: &[TypeBrackets<'_>],
) -> Result<List<List<NumberedItem>>, Memory>
    requires { All IsOrdered found.now }
    ensures grown { Grows types.old types.new }
    ensures ok { IfOk result (λ all. AreAllNumbered types.new all (all_known found.now)) }
{
    let mut brackets = List::new(alloc);
    write_types(alloc, types, &mut brackets, found)?;
    Ok(brackets)
}

/// Returns the brackets of the types in declarations, with the items numbered as by
/// `number_brackets`.
pub fn number_declared(
    alloc: Global,
    types: &mut TypeStore,
    found: &[List<TypeBrackets<'_>>],
) -> Result<List<List<NumberedItem>>, Memory>
    requires { All (All IsOrdered) found.now }
    ensures grown { Grows types.old types.new }
    ensures ok { IfOk result (λ all. AreAllNumbered types.new all (flat_map all_known found.now)) }
{
    let mut brackets = List::new(alloc);
    for inside in found {
        write_types(alloc, types, &mut brackets, inside.as_slice())?;
    }
    Ok(brackets)
}
