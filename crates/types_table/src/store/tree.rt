//! Copies a type out of the store.

ghost use Rattle.std.specs.Prelude.{◌≡◌, ◌<◌, length, IfOk};
ghost use Rattle.types_spec.specs.types.TypeNodes.{type_at};
ghost use Rattle.types_table.specs.store.BorrowedNode.{written_of};

use crate::store::stored_node::TypeNode;
use crate::store::type_store::TypeStore;
use base_data::model::Memory;
use base_data::text::copied;
use std::alloc::Global;
use types_spec::types::ty::{Ty, TypeTreeNode};

impl TypeStore {
    /// Returns the type with this number as a separate tree. Takes one step for each number up to
    /// `number`.
    pub fn tree(&self, alloc: Global, number: usize) -> Result<Ty, Memory>
        requires { number < length self.now }
        ensures { IfOk result (λ t. t ≡ type_at self.now number) }
    {
        let mut nodes = Vec::new(alloc);
        for i in 0..number {
            let node = written(alloc, self.node(i))?;
            nodes.push(node)?;
        }
        let last = written(alloc, self.node(number))?;
        nodes.push(last)?;
        Ok(Ty::of(nodes))
    }
}

/// Returns a copy of the node that owns its name.
fn written(alloc: Global, node: TypeNode<'_>) -> Result<TypeTreeNode, Memory>
    ensures { IfOk result (λ n. n ≡ written_of node.entry) }
{
    match node {
        TypeNode::Variable(name) => Ok(TypeTreeNode::Variable(copied(alloc, name)?)),
        TypeNode::Named(name) => Ok(TypeTreeNode::Named(copied(alloc, name)?)),
        TypeNode::Tuple => Ok(TypeTreeNode::Tuple),
        TypeNode::Bracket => Ok(TypeTreeNode::Bracket),
        TypeNode::Part(whole, added) => Ok(TypeTreeNode::Part(whole, added)),
        TypeNode::Tag(whole, name) => Ok(TypeTreeNode::Tag(whole, copied(alloc, name)?)),
        TypeNode::TagOf(whole, name, argument) => {
            Ok(TypeTreeNode::TagOf(whole, copied(alloc, name)?, argument))
        }
        TypeNode::Including(whole, included) => Ok(TypeTreeNode::Including(whole, included)),
    }
}
