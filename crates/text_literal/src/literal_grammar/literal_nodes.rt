//! A list of nodes, stored in eight bytes each.

ghost use Rattle.std.specs.Prelude.{◌≡◌, ◌∷◌, ◌++◌, ◌<◌, ◌^◌, [], Some, List, length, slice_get};
ghost use Rattle.std.specs.Prelude.{slice_set, IfOk, IfSome};
ghost use Rattle.text_literal.specs.literal_grammar.SmallNodes.{IsSmall, Keeps, Holds};

use crate::literal_grammar::literal_node::{LiteralNode, NodeForm};
use base_data::model::Memory;
use std::alloc::Global;
use std::marker::Model;

/// A node in eight bytes. The node has no label and its numbers are small. If `form` is `None`,
/// `first` is the index of a node in the list `others`.
#[derive(Clone, Copy)]
pub struct SmallNode {
    pub first: u32,
    pub parts: u16,
    pub form: Option<NodeForm>,
}

const _: () = prove!(size_of::<SmallNode>() == 8);

/// A list of nodes. Contracts see only the list. The field `others` stores the nodes that do not
/// fit into eight bytes.
#[derive(Drop)]
pub struct LiteralNodes {
    small: Vec<SmallNode>,
    others: Vec<LiteralNode>,
}

impl Model for LiteralNodes {
    ghost use Rattle.std.specs.Prelude.{List, length};
    ghost use Rattle.text_literal.specs.declared.literal_grammar.literal_node.LiteralNode.{LiteralNode};

    ghost Value = { List LiteralNode };

    ghost use Rattle.text_literal.specs.literal_grammar.SmallNodes.{nodes_in, AreHeld};

    ghost view = { λ n. nodes_in n.others.items n.small.items };

    ghost invariant = { λ n. AreHeld (length n.others.items) n.small.items };
}

/// Returns the node in eight bytes, or `None` if the node does not fit into eight bytes.
#[inline(always)]
fn small_of(node: &LiteralNode) -> Option<SmallNode>
    ensures { IfSome result (IsSmall node.now) }
{
    if node.label.is_some() || node.first >= 1 << 32 || node.parts >= 1 << 16 {
        return None;
    }
    Some(SmallNode {
        first: node.first as u32,
        parts: node.parts as u16,
        form: Some(node.form),
    })
}

/// Returns the entry of eight bytes for a node. If the node does not fit into eight bytes, appends
/// the node to `others`. Fails with `Memory` if memory runs out.
#[inline(always)]
fn hold(others: &mut Vec<LiteralNode>, node: LiteralNode) -> Result<SmallNode, Memory>
    ensures kept { Keeps others.old.items others.new.items }
    ensures held { IfOk result (Holds others.new.items node) }
{
    if let Some(small) = small_of(&node) {
        return Ok(small);
    }
    let number = others.len();
    if number >= 1 << 32 {
        return Err(Memory);
    }
    others.push(node)?;
    Ok(SmallNode {
        first: number as u32,
        parts: 0,
        form: None,
    })
}

impl LiteralNodes {
    pub(crate) fn new(alloc: Global) -> LiteralNodes
        ensures { result ≡ [] }
    {
        LiteralNodes {
            small: Vec::new(alloc),
            others: Vec::new(alloc),
        }
    }

    /// Returns an empty list, and tries to reserve memory for `many` nodes.
    pub(crate) fn with_room(alloc: Global, many: usize) -> LiteralNodes
        ensures { result ≡ [] }
    {
        let mut small = Vec::new(alloc);
        let _room = small.reserve(many);
        LiteralNodes {
            small,
            others: Vec::new(alloc),
        }
    }

    /// Returns the number of nodes.
    pub fn len(&self) -> usize
        ensures count { result ≡ length self.now }
        ensures few { result < 2 ^ 63 }
    {
        self.small.len()
    }

    /// Returns the node with index `k`.
    #[inline(always)]
    pub fn get(&self, k: usize) -> LiteralNode
        requires { k < length self.now }
        ensures { slice_get self.now k ≡ Some result }
    {
        let small = self.small[k];
        match small.form {
            Some(form) => LiteralNode {
                form,
                label: None,
                first: small.first as usize,
                parts: small.parts as usize,
            },
            None => self.others[small.first as usize],
        }
    }

    #[inline(always)]
    pub(crate) fn push(&mut self, node: LiteralNode) -> Result<(), Memory>
        ensures { IfOk result (λ _. self.new ≡ self.old ++ node ∷ []) }
    {
        let small = hold(&mut self.others, node)?;
        self.small.reserve(1)?;
        self.small.push_reserved(small);
        Ok(())
    }

    /// Replaces the node with index `k`.
    #[inline(always)]
    pub(crate) fn set(&mut self, k: usize, node: LiteralNode) -> Result<(), Memory>
        ensures { IfOk result (λ _. self.new ≡ slice_set self.old k node) }
    {
        let small = hold(&mut self.others, node)?;
        if k < self.small.len() {
            self.small[k] = small;
        }
        Ok(())
    }
}
