//! Prints a type given as a list of nodes.

use crate::table_rows::write;
use base_data::model::Memory;
use std::alloc::Global;
use types_spec::types::ty::TypeTreeNode;

/// A type under construction: the type's first node, the text of the parts added so far, the number
/// of these parts, and whether the last part is a tuple.
#[derive(Drop)]
struct Partial<'a> {
    first: &'a TypeTreeNode,
    parts: Vec<u8>,
    many: usize,
    tuple: bool,
}

// Returns the separator of two parts.
fn separator(first: &TypeTreeNode) -> &'static [u8] {
    match first {
        TypeTreeNode::Bracket => b" | ",
        TypeTreeNode::Tuple => b" * ",
        _ => b", ",
    }
}

// Appends the arguments of a name. Several arguments, or a tuple, are in parentheses.
fn write_arguments(out: &mut Vec<u8>, partial: &Partial<'_>) -> Result<(), Memory> {
    if partial.many == 0 {
        return Ok(());
    }
    let enclosed = partial.many > 1 || partial.tuple;
    write(out, if enclosed { b"(" } else { b"" })?;
    write(out, partial.parts.as_slice())?;
    write(out, if enclosed { b") " } else { b" " })
}

// Appends the text of a type.
fn write_partial(out: &mut Vec<u8>, partial: &Partial<'_>) -> Result<(), Memory> {
    match partial.first {
        TypeTreeNode::Variable(name) => {
            write(out, b"'")?;
            write(out, name.as_slice())
        }
        TypeTreeNode::Named(name) => {
            write_arguments(out, partial)?;
            write(out, name.as_slice())
        }
        TypeTreeNode::Bracket => {
            write(out, b"[ ")?;
            write(out, partial.parts.as_slice())?;
            write(out, b" ]")
        }
        _ => write(out, partial.parts.as_slice()),
    }
}

// Returns the type at an index, ready for one more part.
fn with_part<'a>(
    alloc: Global,
    before: &[Partial<'a>],
    position: usize,
) -> Result<Partial<'a>, Memory> {
    let Some(partial) = before.get(position) else {
        return Err(Memory);
    };
    let mut parts = Vec::from_slice(alloc, partial.parts.as_slice())?;
    if partial.many > 0 {
        write(&mut parts, separator(partial.first))?;
    }
    Ok(Partial {
        first: partial.first,
        parts,
        many: partial.many.saturating_add(1),
        tuple: false,
    })
}

// Appends a tag to a type.
fn write_tag(partial: &mut Partial<'_>, name: &[u8]) -> Result<(), Memory> {
    write(&mut partial.parts, b"`")?;
    write(&mut partial.parts, name)
}

// Appends the type at an index to a type. A tuple inside a tuple is in parentheses.
fn write_type_at(
    partial: &mut Partial<'_>,
    before: &[Partial<'_>],
    position: usize,
) -> Result<(), Memory> {
    let Some(part) = before.get(position) else {
        return Err(Memory);
    };
    partial.tuple = matches!(part.first, TypeTreeNode::Tuple);
    let enclosed = partial.tuple && matches!(partial.first, TypeTreeNode::Tuple);
    write(&mut partial.parts, if enclosed { b"(" } else { b"" })?;
    write_partial(&mut partial.parts, part)?;
    write(&mut partial.parts, if enclosed { b")" } else { b"" })
}

// Returns the type of a node, given the types of the nodes before it.
fn partial_of<'a>(
    alloc: Global,
    before: &[Partial<'a>],
    node: &'a TypeTreeNode,
) -> Result<Partial<'a>, Memory> {
    match node {
        TypeTreeNode::Part(whole, added) | TypeTreeNode::Including(whole, added) => {
            let mut partial = with_part(alloc, before, *whole)?;
            write_type_at(&mut partial, before, *added)?;
            Ok(partial)
        }
        TypeTreeNode::Tag(whole, name) => {
            let mut partial = with_part(alloc, before, *whole)?;
            write_tag(&mut partial, name.as_slice())?;
            Ok(partial)
        }
        TypeTreeNode::TagOf(whole, name, argument) => {
            let mut partial = with_part(alloc, before, *whole)?;
            write_tag(&mut partial, name.as_slice())?;
            write(&mut partial.parts, b" of ")?;
            write_type_at(&mut partial, before, *argument)?;
            Ok(partial)
        }
        _ => Ok(Partial {
            first: node,
            parts: Vec::new(alloc),
            many: 0,
            tuple: false,
        }),
    }
}

/// Appends the text of the type of the last node.
pub fn write_type(out: &mut Vec<u8>, alloc: Global, nodes: &[TypeTreeNode]) -> Result<(), Memory> {
    let mut all = Vec::new(alloc);
    for node in nodes {
        let partial = partial_of(alloc, all.as_slice(), node)?;
        all.push(partial)?;
    }
    match all.as_slice() {
        [.., last] => write_partial(out, last),
        [] => Ok(()),
    }
}
