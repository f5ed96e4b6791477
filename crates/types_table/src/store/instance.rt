//! Adds instances of types to a store: types whose parameters are replaced by arguments.

ghost use Rattle.std.specs.Prelude.{◌≡◌, ◌<◌, List, Some, length, slice_get, map, All, Contains};
ghost use Rattle.std.specs.Prelude.{IfOk, IfSome, OnErr};
ghost use Rattle.types_spec.specs.types.Ty.{Ty, instance};
ghost use Rattle.types_spec.specs.types.TypeNodes.{type_at, types_of, IsBelow, AreOrdered};
ghost use Rattle.types_table.specs.store.Held.{Grows, Holds};
ghost use Rattle.types_table.specs.store.Instance.{instance_of_node, argument_at, type_or_variable};
ghost use Rattle.types_table.specs.store.Instance.{AreInstances, HoldsEach};

use crate::store::type_store::TypeStore;
use base_data::model::Memory;
use base_data::model::list::List;
use std::alloc::Global;
use types_spec::types::ty::{Ty, TypeTreeNode};

impl TypeStore {
    /// Returns the number of the instance of `t` in which each parameter is replaced by its
    /// argument. If the store does not contain the instance, adds the instance. Variables that are
    /// not parameters stay as they are. Takes one step for each node of the type, and for each
    /// variable one step for each parameter before the variable's parameter. If `Memory` is
    /// returned, the store is unchanged.
    pub fn instance(
        &mut self,
        alloc: Global,
        t: &Ty,
        parameters: &[List<u8>],
        arguments: &[usize],
    ) -> Result<usize, Memory>
        requires { All (λ i. i < length self.old) arguments.now }
        ensures ok { IfOk result
            (Holds self.old self.new
            (instance (argument_at self.old parameters.now arguments.now) t.now)) }
        ensures err { OnErr result (self.new ≡ self.old) }
    {
        let before = self.len();
        match grow(self, alloc, t.nodes(), parameters, arguments) {
            Ok(number) => Ok(number),
            Err(error) => {
                self.truncate(before);
                Err(error)
            }
        }
    }

    /// Returns the number of the type of each node, and adds the types that are missing. If
    /// `Memory` is returned, the store is unchanged.
    pub fn add_nodes(&mut self, alloc: Global, nodes: &[TypeTreeNode]) -> Result<Vec<usize>, Memory>
        requires { AreOrdered nodes.now }
        ensures ok { IfOk result
            (λ numbers. HoldsEach self.old self.new (types_of nodes.now) numbers.items) }
        ensures err { OnErr result (self.new ≡ self.old) }
    {
        let count = self.len();
        match numbers_of(self, alloc, nodes, &[], &[]) {
            Ok(numbers) => Ok(numbers),
            Err(error) => {
                self.truncate(count);
                Err(error)
            }
        }
    }

    /// Returns the number of the type `t`, and adds the type if it is missing. If `Memory` is
    /// returned, the store is unchanged.
    pub fn add(&mut self, alloc: Global, t: &Ty) -> Result<usize, Memory>
        ensures ok { IfOk result (Holds self.old self.new t.now) }
        ensures err { OnErr result (self.new ≡ self.old) }
    {
        self.instance(alloc, t, &[], &[])
    }
}

ghost use Rattle.types_spec.specs.types.TypeNodes.{type_of};

/// Adds the instances of nodes. Returns the number of the last node's instance.
fn grow(
    types: &mut TypeStore,
    alloc: Global,
    nodes: &[TypeTreeNode],
    parameters: &[List<u8>],
    arguments: &[usize],
) -> Result<usize, Memory>
    requires among { All (λ i. i < length types.old) arguments.now }
    requires ordered { AreOrdered nodes.now }
    ensures grown { Grows types.old types.new }
    ensures ok { IfOk result
        (λ i. slice_get types.new i
        ≡ Some
        (instance (argument_at types.old parameters.now arguments.now)
        (type_of nodes.now))) }
{
    let numbers = numbers_of(types, alloc, nodes, parameters, arguments)?;
    match numbers.last() {
        Some(number) => Ok(*number),
        None => types.add_tuple(),
    }
}

/// Adds the instances of nodes. Returns the numbers of the instances.
fn numbers_of(
    types: &mut TypeStore,
    alloc: Global,
    nodes: &[TypeTreeNode],
    parameters: &[List<u8>],
    arguments: &[usize],
) -> Result<Vec<usize>, Memory>
    requires among { All (λ i. i < length types.old) arguments.now }
    requires ordered { AreOrdered nodes.now }
    ensures grown { Grows types.old types.new }
    ensures ok { IfOk result
        (λ numbers. AreInstances types.old types.new
        (argument_at types.old parameters.now arguments.now) nodes.now (length nodes.now)
        numbers.items) }
{
    let mut numbers = Vec::new(alloc);
    for node in nodes {
        let number = add_node(types, node, numbers.as_slice(), parameters, arguments)?;
        numbers.push(number)?;
    }
    Ok(numbers)
}

/// Adds the instance of one node. The parts of the instance are the instances of earlier nodes.
fn add_node(
    types: &mut TypeStore,
    node: &TypeTreeNode,
    numbers: &[usize],
    parameters: &[List<u8>],
    arguments: &[usize],
) -> Result<usize, Memory>
    requires numbered { All (λ i. i < length types.old) numbers.now }
    requires among { All (λ i. i < length types.old) arguments.now }
    requires below { IsBelow (length numbers.now) node.now }
    ensures ok { IfOk result
        (Holds types.old types.new
        (instance_of_node (argument_at types.old parameters.now arguments.now)
        (map (type_at types.old) numbers.now) node.now)) }
    ensures err { OnErr result (types.new ≡ types.old) }
{
    match node {
        TypeTreeNode::Variable(name) => match argument(parameters, arguments, name.as_slice()) {
            Some(number) => Ok(number),
            None => types.add_variable(name.as_slice()),
        },
        TypeTreeNode::Named(name) => types.add_named(name.as_slice()),
        TypeTreeNode::Tuple => types.add_tuple(),
        TypeTreeNode::Bracket => types.add_bracket(),
        TypeTreeNode::Part(whole, added) => types.add_part(numbers[*whole], numbers[*added]),
        TypeTreeNode::Tag(whole, name) => types.add_tag(numbers[*whole], name.as_slice()),
        TypeTreeNode::TagOf(whole, name, argument) => {
            types.add_tag_of(numbers[*whole], name.as_slice(), numbers[*argument])
        }
        TypeTreeNode::Including(whole, included) => {
            types.add_including(numbers[*whole], numbers[*included])
        }
    }
}

/// Returns the argument of the first parameter named `name`, or `None` if no parameter has the
/// name.
fn argument(parameters: &[List<u8>], arguments: &[usize], name: &[u8]) -> Option<usize>
    ensures stands { (types : List Ty)
        → argument_at types parameters.now arguments.now name.now
        ≡ type_or_variable types name.now result }
    ensures among { IfSome result (λ i. Contains arguments.now i) }
{
    for i in 0..parameters.len().min(arguments.len()) {
        if parameters[i].as_slice() == name {
            return Some(arguments[i]);
        }
    }
    None
}
