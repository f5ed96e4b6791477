//! The store of types.

ghost use Rattle.std.specs.Prelude.{◌≡◌, ◌<◌, ◌≤◌, [], Some, length, slice_get, take, IfOk, OnErr};
ghost use Rattle.types_spec.specs.types.Ty.{variable, named, tuple, bracket, part, tag, tag_of};
ghost use Rattle.types_spec.specs.types.Ty.{including};
ghost use Rattle.types_spec.specs.types.TypeNodes.{type_at, type_of_node, IsBelow};
ghost use Rattle.types_table.specs.store.Held.{AddsOnce, Holds, AreDistinct};
ghost use Rattle.types_table.specs.store.BorrowedNode.{written_of};

use crate::store::name_set::NameSet;
use crate::store::stored_node::{StoredNode, TypeNode};
use base_data::model::Memory;
use indexmap::IndexSet;
use std::alloc::Global;
use std::marker::Model;

/// A set of types in which each type occurs once. Contracts see a store as the list of its types as
/// trees, and number `i` is the `i`-th type. If a call fails with `Memory`, the list of types is
/// unchanged.
#[derive(Drop)]
pub struct TypeStore {
    names: NameSet,
    nodes: IndexSet<StoredNode>,
}

impl Model for TypeStore {
    ghost use Rattle.std.specs.Prelude.{List};
    ghost use Rattle.std.specs.Coded.{coded_list};
    ghost use Rattle.types_spec.specs.types.Ty.{Ty};
    ghost use Rattle.types_spec.specs.types.TyCode.{code};

    ghost Value = { List Ty };

    ghost coded = { coded_list code };

    ghost use Rattle.types_table.specs.store.View.{types_in, IsStore};

    ghost view = { λ s. types_in s.names s.nodes.keys };

    ghost invariant = { λ s. IsStore s.names s.nodes.keys };
}

impl TypeStore {
    /// Returns an empty store.
    pub fn new(alloc: Global) -> TypeStore
        ensures { result ≡ [] }
    {
        TypeStore {
            names: NameSet::new(alloc),
            nodes: IndexSet::new(alloc),
        }
    }

    /// Returns the number of types in the store.
    pub fn len(&self) -> usize
        ensures many { result ≡ length self.now }
        ensures distinct { AreDistinct self.now }
    {
        self.nodes.len()
    }

    /// Returns the number of a type variable, and adds it if it is missing.
    pub fn add_variable(&mut self, name: &[u8]) -> Result<usize, Memory>
        ensures ok { IfOk result (Holds self.old self.new (variable name.now)) }
        ensures err { OnErr result (self.new ≡ self.old) }
    {
        let name = known(&mut self.names, &self.nodes, name)?;
        write(&self.names, &mut self.nodes, StoredNode::Variable(name))
    }

    /// Returns the number of a named type without arguments, and adds it if it is missing.
    pub fn add_named(&mut self, name: &[u8]) -> Result<usize, Memory>
        ensures ok { IfOk result (Holds self.old self.new (named name.now)) }
        ensures err { OnErr result (self.new ≡ self.old) }
    {
        let name = known(&mut self.names, &self.nodes, name)?;
        write(&self.names, &mut self.nodes, StoredNode::Named(name))
    }

    /// Returns the number of the tuple without components, and adds it if it is missing.
    pub fn add_tuple(&mut self) -> Result<usize, Memory>
        ensures ok { IfOk result (Holds self.old self.new tuple) }
        ensures err { OnErr result (self.new ≡ self.old) }
    {
        write(&self.names, &mut self.nodes, StoredNode::Tuple)
    }

    /// Returns the number of the polymorphic variant type without tags, and adds it if it is
    /// missing.
    pub fn add_bracket(&mut self) -> Result<usize, Memory>
        ensures ok { IfOk result (Holds self.old self.new bracket) }
        ensures err { OnErr result (self.new ≡ self.old) }
    {
        write(&self.names, &mut self.nodes, StoredNode::Bracket)
    }

    /// Returns the number of the type `whole` with `added` as one more argument or component, and
    /// adds it if it is missing.
    pub fn add_part(&mut self, whole: usize, added: usize) -> Result<usize, Memory>
        requires whole { whole < length self.old }
        requires added { added < length self.old }
        ensures ok { IfOk result
            (Holds self.old self.new (part (type_at self.old whole) (type_at self.old added))) }
        ensures err { OnErr result (self.new ≡ self.old) }
    {
        write(&self.names, &mut self.nodes, StoredNode::Part(whole, added))
    }

    /// Returns the number of the polymorphic variant type `whole` with one more tag, and adds it if
    /// it is missing.
    pub fn add_tag(&mut self, whole: usize, name: &[u8]) -> Result<usize, Memory>
        requires { whole < length self.old }
        ensures ok { IfOk result (Holds self.old self.new (tag (type_at self.old whole) name.now)) }
        ensures err { OnErr result (self.new ≡ self.old) }
    {
        let name = known(&mut self.names, &self.nodes, name)?;
        write(&self.names, &mut self.nodes, StoredNode::Tag(whole, name))
    }

    /// Returns the number of the polymorphic variant type `whole` with one more tag and its
    /// argument, and adds it if it is missing.
    pub fn add_tag_of(
        &mut self,
        whole: usize,
        name: &[u8],
        argument: usize,
    ) -> Result<usize, Memory>
        requires whole { whole < length self.old }
        requires argument { argument < length self.old }
        ensures ok { IfOk result
            (Holds self.old self.new
            (tag_of (type_at self.old whole) name.now (type_at self.old argument))) }
        ensures err { OnErr result (self.new ≡ self.old) }
    {
        let name = known(&mut self.names, &self.nodes, name)?;
        write(
            &self.names,
            &mut self.nodes,
            StoredNode::TagOf(whole, name, argument),
        )
    }

    /// Returns the number of the polymorphic variant type `whole` that also includes `included`,
    /// and adds it if it is missing.
    pub fn add_including(&mut self, whole: usize, included: usize) -> Result<usize, Memory>
        requires whole { whole < length self.old }
        requires included { included < length self.old }
        ensures ok { IfOk result
            (Holds self.old self.new
            (including (type_at self.old whole) (type_at self.old included))) }
        ensures err { OnErr result (self.new ≡ self.old) }
    {
        write(
            &self.names,
            &mut self.nodes,
            StoredNode::Including(whole, included),
        )
    }

    /// Returns the node of a type. The node's parts are smaller numbers.
    pub fn node(&self, number: usize) -> TypeNode<'_>
        requires { number < length self.now }
        ensures is { slice_get self.now number ≡ Some (type_of_node self.now (written_of result)) }
        ensures below { IsBelow number (written_of result) }
    {
        encoding(&self.names, stored(&self.nodes, number))
    }

    /// Keeps the first `count` types and removes the others.
    pub(crate) fn truncate(&mut self, count: usize)
        requires { count ≤ length self.old }
        ensures { self.new ≡ take count self.old }
    {
        self.nodes.truncate(count);
    }
}

ghost use Rattle.types_table.specs.store.View.{types_in, encoded, name_at, IsNamedBelow, IsStore};

/// Returns the number of a name, and adds the name if it is missing. The types of the nodes are
/// unchanged.
fn known(names: &mut NameSet, nodes: &IndexSet<StoredNode>, name: &[u8]) -> Result<usize, Memory>
    requires { IsStore names.old nodes.now.keys }
    ensures store { IsStore names.new nodes.now.keys }
    ensures types { types_in names.new nodes.now.keys ≡ types_in names.old nodes.now.keys }
    ensures below { IfOk result (λ n. n < length names.new) }
    ensures is { IfOk result (λ n. name_at names.new n ≡ name.now) }
{
    names.number(name)
}

/// Returns the number of a node, and adds the node if it is missing.
fn write(
    names: &NameSet,
    nodes: &mut IndexSet<StoredNode>,
    node: StoredNode,
) -> Result<usize, Memory>
    requires store { IsStore names.now nodes.old.keys }
    requires named { IsNamedBelow (length names.now) node }
    requires below { IsBelow (length (types_in names.now nodes.old.keys)) (encoded names.now node) }
    ensures store { IsStore names.now nodes.new.keys }
    ensures ok { let types = types_in names.now nodes.old.keys in
        IfOk result
        (Holds types (types_in names.now nodes.new.keys)
        (type_of_node types (encoded names.now node))) }
    ensures err { OnErr result (nodes.new.keys ≡ nodes.old.keys) }
{
    number_of(nodes, node)
}

/// Returns the number of a node in a set, and adds the node if it is missing.
fn number_of(nodes: &mut IndexSet<StoredNode>, node: StoredNode) -> Result<usize, Memory>
    ensures ok { IfOk result (AddsOnce nodes.old.keys nodes.new.keys node) }
    ensures err { OnErr result (nodes.new.keys ≡ nodes.old.keys) }
    ensures distinct { AreDistinct nodes.new.keys }
{
    let (number, _) = nodes.insert_full(node)?;
    Ok(number)
}

/// Returns the node with this number.
fn stored(nodes: &IndexSet<StoredNode>, number: usize) -> StoredNode
    requires { number < length nodes.now.keys }
    ensures { slice_get nodes.now.keys number ≡ Some result }
{
    nodes.as_slice()[number]
}

/// Returns a stored node with its name instead of the name's number.
fn encoding(names: &NameSet, node: StoredNode) -> TypeNode<'_>
    requires { IsNamedBelow (length names.now) node }
    ensures { written_of result ≡ encoded names.now node }
{
    match node {
        StoredNode::Variable(name) => TypeNode::Variable(names.name(name)),
        StoredNode::Named(name) => TypeNode::Named(names.name(name)),
        StoredNode::Tuple => TypeNode::Tuple,
        StoredNode::Bracket => TypeNode::Bracket,
        StoredNode::Part(whole, added) => TypeNode::Part(whole, added),
        StoredNode::Tag(whole, name) => TypeNode::Tag(whole, names.name(name)),
        StoredNode::TagOf(whole, name, argument) => TypeNode::TagOf(
            whole,
            names.name(name),
            argument,
        ),
        StoredNode::Including(whole, included) => TypeNode::Including(whole, included),
    }
}
