//! An item of a bracket, with the number of its type.

ghost use Rattle.std.specs.Prelude.{◌≡◌, ◌<◌, Some, length, slice_get, IfOk};
ghost use Rattle.types_spec.specs.types.Ty.{bracket, tag, tag_of, including};
ghost use Rattle.types_spec.specs.types.TypeNodes.{type_at, types_of};
ghost use Rattle.types_resolve.specs.scope.TypeBrackets.{item_of, item_known};
ghost use Rattle.types_table.specs.store.Held.{Grows};
ghost use Rattle.types_table.specs.store.Instance.{HasNumbers};
ghost use Rattle.types_wellformed.specs.head_rules.NumberedTypes.{IsNumbered};

use crate::head_rules::head_nodes::HeadNodes;
use base_data::model::Memory;
use types_resolve::scope::BracketItem;
use types_spec::types::ty::TypeTreeNode;
use types_table::store::TypeStore;

/// An item of a bracket, with its lexeme and the number of its type.
#[derive(Clone, Copy)]
pub struct NumberedItem {
    /// The index of the item's first lexeme.
    pub position: usize,
    /// The number of the bracket that contains only the item.
    pub number: usize,
}

/// Returns the number of the bracket that contains only the tag `name`, without an argument.
fn tag_number(types: &mut TypeStore, name: &[u8]) -> Result<usize, Memory>
    ensures grown { Grows types.old types.new }
    ensures ok { IfOk result (λ n. slice_get types.new n ≡ Some (tag bracket name.now)) }
{
    let bracket = types.add_bracket()?;
    types.add_tag(bracket, name)
}

/// Returns the number of the bracket that contains only the tag `name` with its argument.
fn tag_of_number(types: &mut TypeStore, name: &[u8], argument: usize) -> Result<usize, Memory>
    requires { argument < length types.old }
    ensures grown { Grows types.old types.new }
    ensures ok { IfOk result
        (λ n. slice_get types.new n ≡ Some (tag_of bracket name.now (type_at types.old argument))) }
{
    let bracket = types.add_bracket()?;
    types.add_tag_of(bracket, name, argument)
}

/// Returns the number of the bracket that contains only the included type.
fn including_number(types: &mut TypeStore, included: usize) -> Result<usize, Memory>
    requires { included < length types.old }
    ensures grown { Grows types.old types.new }
    ensures ok { IfOk result
        (λ n. slice_get types.new n ≡ Some (including bracket (type_at types.old included))) }
{
    let bracket = types.add_bracket()?;
    types.add_including(bracket, included)
}

/// Returns the number of the bracket that contains only the item that a node adds.
fn node_number(
    types: &mut TypeStore,
    nodes: &HeadNodes<'_>,
    numbers: &[usize],
    n: usize,
) -> Result<usize, Memory>
    requires numbers { HasNumbers types.old (types_of nodes.now.all.now) numbers.now }
    requires below { n < length nodes.now.all.now }
    ensures grown { Grows types.old types.new }
    ensures ok { IfOk result
        (λ i. slice_get types.new i ≡ Some (item_of (type_at (types_of nodes.now.all.now) n))) }
{
    match &nodes.all[n] {
        TypeTreeNode::Tag(_, x) => tag_number(types, x.as_slice()),
        TypeTreeNode::TagOf(_, x, a) => tag_of_number(types, x.as_slice(), numbers[*a]),
        TypeTreeNode::Including(_, u) => including_number(types, numbers[*u]),
        _ => Ok(numbers[n]),
    }
}

/// Returns the number of the bracket that contains only the item that a node adds, if the node
/// exists.
fn item_number(
    types: &mut TypeStore,
    nodes: &HeadNodes<'_>,
    numbers: &[usize],
    n: usize,
) -> Result<usize, Memory>
    requires numbers { HasNumbers types.old (types_of nodes.now.all.now) numbers.now }
    ensures grown { Grows types.old types.new }
    ensures ok { IfOk result
        (λ i. slice_get types.new i ≡ Some (item_of (type_at (types_of nodes.now.all.now) n))) }
{
    if n < nodes.all.len() {
        node_number(types, nodes, numbers, n)
    } else {
        types.add_tuple()
    }
}

/// Returns an item with the number of its type.
pub fn number_item(
    types: &mut TypeStore,
    nodes: &HeadNodes<'_>,
    numbers: &[usize],
    item: &BracketItem,
) -> Result<NumberedItem, Memory>
    requires numbers { HasNumbers types.old (types_of nodes.now.all.now) numbers.now }
    ensures grown { Grows types.old types.new }
    ensures ok { IfOk result
        (λ i. IsNumbered types.new i (item_known (types_of nodes.now.all.now) item.now)) }
{
    Ok(NumberedItem {
        position: item.position,
        number: item_number(types, nodes, numbers, item.node)?,
    })
}
