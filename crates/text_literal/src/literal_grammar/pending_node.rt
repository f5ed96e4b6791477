//! The brackets that are open while a literal is read. In the model, the innermost bracket comes
//! first.

ghost use Rattle.std.specs.Prelude.{◌≡◌, None, List, [], ◌∷◌, reverse, IfOk, IfSome};
ghost use Rattle.text_literal.specs.literal_grammar.PoppedNode.{Popped};
ghost use Rattle.text_literal.specs.literal_grammar.SmallOpens.{IsSmallOpen, blank_open};

use crate::literal_grammar::literal_node::{LiteralNode, NodeForm};
use base_data::model::Memory;
use std::alloc::Global;
use std::marker::Model;

/// The kind of an open bracket.
#[derive(Clone, Copy)]
pub enum OpenKind {
    Arguments,
    Parens,
    Array,
    Fields,
}

/// An open bracket, the index of the bracket's node, and the node with its number of parts so far.
#[derive(Clone, Copy)]
pub struct PendingNode {
    pub bracket: OpenKind,
    pub index: usize,
    pub node: LiteralNode,
}

/// What the parser read last, with the index of the first lexeme or of the node that was read.
#[derive(Clone, Copy)]
pub enum Stage {
    Due,
    Hash(usize),
    Number(usize, u64),
    PlainDue(usize, u64),
    Bracket(usize, LiteralNode),
    Head(usize, LiteralNode),
    FieldDue(usize, LiteralNode),
    NameRead(usize, LiteralNode),
    Whole,
}

/// An open bracket in sixteen bytes. The bracket's node has no label and its numbers are small. If
/// `form` is `None`, the entry stands for the last bracket in `others`.
#[derive(Clone, Copy)]
pub struct SmallOpen {
    pub index: u32,
    pub first: u32,
    pub parts: u32,
    pub bracket: OpenKind,
    pub form: Option<NodeForm>,
}

const _: () = prove!(size_of::<SmallOpen>() == 16);

/// The stack of open brackets. In memory, the innermost bracket comes last. The field `others`
/// stores the brackets that do not fit into sixteen bytes.
#[derive(Drop)]
pub struct Opens {
    small: Vec<SmallOpen>,
    others: Vec<PendingNode>,
}

impl Model for Opens {
    ghost use Rattle.std.specs.Prelude.{List, reverse};
    ghost use Rattle.text_literal.specs.declared.literal_grammar.pending_node.PendingNode.{PendingNode};

    ghost Value = { List PendingNode };

    ghost use Rattle.text_literal.specs.literal_grammar.SmallOpens.{opens_in};

    ghost view = { λ s. opens_in (reverse s.small.items) (reverse s.others.items) };
}

/// Returns the bracket in sixteen bytes, or `None` if the bracket does not fit into sixteen bytes.
#[inline(always)]
fn small_of(outer: &PendingNode) -> Option<SmallOpen>
    ensures { IfSome result (IsSmallOpen outer.now) }
{
    let node = outer.node;
    if node.label.is_some() || node.first >= 1 << 32 || node.parts >= 1 << 32 {
        return None;
    }
    if outer.index >= 1 << 32 {
        return None;
    }
    Some(SmallOpen {
        index: outer.index as u32,
        first: node.first as u32,
        parts: node.parts as u32,
        bracket: outer.bracket,
        form: Some(node.form),
    })
}

/// Returns the entry that stands for a bracket in `others`.
#[inline(always)]
fn other() -> SmallOpen
    ensures { result.form ≡ None }
{
    SmallOpen {
        index: 0,
        first: 0,
        parts: 0,
        bracket: OpenKind::Parens,
        form: None,
    }
}

/// Returns a placeholder that is never an open bracket.
#[inline(always)]
fn blank() -> PendingNode
    ensures { result ≡ blank_open }
{
    PendingNode {
        bracket: OpenKind::Parens,
        index: 0,
        node: LiteralNode {
            form: NodeForm::Unit,
            label: None,
            first: 0,
            parts: 0,
        },
    }
}

impl Opens {
    pub fn new(alloc: Global) -> Opens
        ensures { result ≡ [] }
    {
        Opens {
            small: Vec::new(alloc),
            others: Vec::new(alloc),
        }
    }

    #[inline(always)]
    pub fn push(&mut self, outer: PendingNode) -> Result<(), Memory>
        ensures { IfOk result (λ _. self.new ≡ outer ∷ self.old) }
    {
        match small_of(&outer) {
            Some(small) => {
                self.small.reserve(1)?;
                self.small.push_reserved(small);
            }
            None => {
                self.others.push(outer)?;
                self.small.push(other())?;
            }
        }
        Ok(())
    }

    #[inline(always)]
    pub fn pop(&mut self) -> Option<PendingNode>
        ensures { Popped self.old self.new result }
    {
        let small = self.small.pop()?;
        match small.form {
            Some(form) => Some(PendingNode {
                bracket: small.bracket,
                index: small.index as usize,
                node: LiteralNode {
                    form,
                    label: None,
                    first: small.first as usize,
                    parts: small.parts as usize,
                },
            }),
            None => match self.others.pop() {
                Some(outer) => Some(outer),
                None => Some(blank()),
            },
        }
    }
}
