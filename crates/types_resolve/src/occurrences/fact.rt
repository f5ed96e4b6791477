//! Facts about the type of each node in a list of nodes.

ghost use Rattle.std.specs.Prelude.{◌≡◌, ◌&&◌, ◌||◌, not, length, IfOk};
ghost use Rattle.types_spec.specs.types.TypeNodes.{types_of, AreOrdered};
ghost use Rattle.types_resolve.specs.occurrences.Facts.{fact_at, leaf, whole, total_of, facts_of};
ghost use Rattle.types_resolve.specs.occurrences.Facts.{AreFacts};

use base_data::model::Memory;
use std::alloc::Global;
use types_spec::types::ty::TypeTreeNode;

/// The facts of a node: the number of marks of the node's type, and properties of the type's parts.
#[derive(Clone, Copy)]
pub struct Facts {
    /// The number of marks in the parts of the node's type, at most `usize::MAX`.
    pub inner: usize,
    /// 1 if the node's type is a variable or begins with a name, and 0 for all other types.
    pub own: usize,
    /// The number of arguments or components of the node's type.
    pub arguments: usize,
    /// True if an argument or component of the node's type contains a variable but is not a
    /// variable.
    pub grows: bool,
    /// True if the node's type contains a variable.
    pub holds: bool,
    /// True if the node's type is a variable.
    pub alone: bool,
    /// The index of the variable, name, tuple or bracket node with which the node's type begins.
    pub base: usize,
}

/// Returns the facts of a node.
pub fn fact_at(facts: &[Facts], n: usize) -> Facts
    ensures { result ≡ fact_at facts.now n }
{
    match facts.get(n) {
        Some(found) => *found,
        None => Facts {
            inner: 0,
            own: 0,
            arguments: 0,
            grows: false,
            holds: false,
            alone: false,
            base: 0,
        },
    }
}

/// Returns true if `first` or `second` is true.
fn either(first: bool, second: bool) -> bool
    ensures { result ≡ (first || second) }
{
    first || second
}

/// Returns true if `first` is true and `second` is false.
fn but_not(first: bool, second: bool) -> bool
    ensures { result ≡ (first && not second) }
{
    first && !second
}

/// Returns the facts of a node that refers to no other node.
fn leaf(own: usize, alone: bool, base: usize) -> Facts
    ensures { result ≡ leaf own alone base }
{
    Facts {
        inner: 0,
        own,
        arguments: 0,
        grows: false,
        holds: alone,
        alone,
        base,
    }
}

/// Returns the facts of a node that extends the node with the facts `f` by one part.
fn whole(f: Facts, inner: usize, arguments: usize, grows: bool, holds: bool) -> Facts
    ensures { result ≡ whole f inner arguments grows holds }
{
    Facts {
        inner,
        own: f.own,
        arguments,
        grows,
        holds,
        alone: false,
        base: f.base,
    }
}

/// Returns the number of marks of a type, at most `usize::MAX`.
pub fn total(g: Facts) -> usize
    ensures { result ≡ total_of g }
{
    g.inner.saturating_add(g.own)
}

/// Returns the facts of the node `node` that follows the nodes with the facts `facts`.
fn facts_of(facts: &[Facts], node: &TypeTreeNode) -> Facts
    ensures { result ≡ facts_of facts.now node.now }
{
    match node {
        TypeTreeNode::Variable(_) => leaf(1, true, facts.len()),
        TypeTreeNode::Named(_) => leaf(1, false, facts.len()),
        TypeTreeNode::Tuple | TypeTreeNode::Bracket => leaf(0, false, facts.len()),
        TypeTreeNode::Part(w, a) => {
            let f = fact_at(facts, *w);
            let g = fact_at(facts, *a);
            let grows = either(f.grows, but_not(g.holds, g.alone));
            let inner = f.inner.saturating_add(total(g));
            whole(
                f,
                inner,
                f.arguments.saturating_add(1),
                grows,
                either(f.holds, g.holds),
            )
        }
        TypeTreeNode::Tag(w, _) => {
            let f = fact_at(facts, *w);
            whole(f, f.inner.saturating_add(1), 0, false, f.holds)
        }
        TypeTreeNode::TagOf(w, _, a) => {
            let f = fact_at(facts, *w);
            let g = fact_at(facts, *a);
            let inner = f.inner.saturating_add(1).saturating_add(total(g));
            whole(f, inner, 0, false, either(f.holds, g.holds))
        }
        TypeTreeNode::Including(w, u) => {
            let f = fact_at(facts, *w);
            let g = fact_at(facts, *u);
            let inner = f.inner.saturating_add(1).saturating_add(total(g));
            whole(f, inner, 0, false, either(f.holds, g.holds))
        }
    }
}

/// Returns the facts of all nodes in a list, in which each node refers to earlier nodes only.
pub fn all_facts(alloc: Global, nodes: &[TypeTreeNode]) -> Result<Vec<Facts>, Memory>
    requires { AreOrdered nodes.now }
    ensures { IfOk result (λ v. AreFacts (types_of nodes.now) (length nodes.now) v.items) }
{
    let mut facts = Vec::new(alloc);
    let count = nodes.len();
    for i in 0..count {
        let next = facts_of(facts.as_slice(), &nodes[i]);
        facts.push(next)?;
    }
    Ok(facts)
}
