//! A traversal of the nodes of a type, which collects the occurrences in the type.

ghost use Rattle.std.specs.Prelude.{◌≡◌, ◌<◌, ◌++◌, ◌∷◌, [], IfOk, OnOk, length, drop, false};
ghost use Rattle.types_spec.specs.types.TypeNodes.{types_of, AreOrdered};
ghost use Rattle.types_resolve.specs.occurrences.Counted.{in_type};
ghost use Rattle.types_resolve.specs.occurrences.CountedFile.{type_count};
ghost use Rattle.types_resolve.specs.occurrences.Adds.{Adds};
ghost use Rattle.types_resolve.specs.scope.TypeBrackets.{brackets_among, brackets_known};
ghost use Rattle.types_resolve.specs.occurrences.Facts.{AreFacts};
ghost use Rattle.types_resolve.specs.occurrences.FoundOccurrences.{AddsFound};
ghost use Rattle.types_resolve.specs.occurrences.Walk.{behind, tasks_of, task_seen};

use crate::occurrences::fact::{Facts, all_facts, fact_at, total};
use crate::occurrences::found_occurrences::{FoundOccurrences, write_brackets};
use crate::occurrences::mark::skip;
use crate::occurrences::own::write_own;
use crate::scope::{BracketItem, Site};
use base_data::model::Memory;
use base_data::model::list::List;
use std::alloc::Global;
use types_spec::types::ty::{Ty, TypeTreeNode};

/// A node to visit. If `whole` is true, the visit includes the occurrence with which the node's
/// type begins. If `whole` is false, the visit includes only the parts of the node's type.
#[derive(Clone, Copy)]
pub struct WalkTask {
    pub node: usize,
    /// The index of the first mark of the node's type.
    pub first: usize,
    pub in_tag: bool,
    pub whole: bool,
}

/// Pushes the task of a part, and on top the task of the whole that the part extends.
fn push_both(
    tasks: &mut Vec<WalkTask>,
    task: WalkTask,
    w: usize,
    part: WalkTask,
) -> Result<(), Memory>
    ensures { OnOk result
        (tasks.new.items
        ≡ tasks.old.items ++ part
        ∷ record { node = w; first = task.first; in_tag = task.in_tag; whole = false }
        ∷ []) }
{
    tasks.push(part)?;
    tasks.push(WalkTask {
        node: w,
        first: task.first,
        in_tag: task.in_tag,
        whole: false,
    })?;
    Ok(())
}

/// Returns the index of the first mark after the marks in the parts of node `w`.
fn behind(facts: &[Facts], task: WalkTask, w: usize) -> usize
    ensures { result ≡ behind facts.now task w }
{
    task.first.saturating_add(fact_at(facts, w).inner)
}

/// Pushes the tasks of a node's parts.
fn push_parts(
    tasks: &mut Vec<WalkTask>,
    facts: &[Facts],
    task: WalkTask,
    node: &TypeTreeNode,
) -> Result<(), Memory>
    ensures { OnOk result (tasks.new.items ≡ tasks.old.items ++ tasks_of facts.now task node.now) }
{
    match node {
        TypeTreeNode::Part(w, a) => {
            let part = WalkTask {
                node: *a,
                first: behind(facts, task, *w),
                in_tag: task.in_tag,
                whole: true,
            };
            push_both(tasks, task, *w, part)
        }
        TypeTreeNode::Including(w, u) => {
            let first = behind(facts, task, *w).saturating_add(1);
            let part = WalkTask {
                node: *u,
                first,
                in_tag: task.in_tag,
                whole: true,
            };
            push_both(tasks, task, *w, part)
        }
        TypeTreeNode::TagOf(w, _, a) => {
            let part = WalkTask {
                node: *a,
                first: behind(facts, task, *w).saturating_add(1),
                in_tag: true,
                whole: true,
            };
            push_both(tasks, task, *w, part)
        }
        TypeTreeNode::Tag(w, _) => {
            let inner = WalkTask {
                node: *w,
                first: task.first,
                in_tag: task.in_tag,
                whole: false,
            };
            Ok(tasks.push(inner)?)
        }
        _ => Ok(()),
    }
}

/// Adds the occurrences in the type of a task's node.
fn walk(
    alloc: Global,
    site: &mut Site,
    brackets: &mut List<List<BracketItem>>,
    nodes: &[TypeTreeNode],
    facts: &[Facts],
    marks: &[usize],
    top: WalkTask,
) -> Result<(), Memory>
    requires ordered { AreOrdered nodes.now }
    requires facts { AreFacts (types_of nodes.now) (length nodes.now) facts.now }
    requires top { top.node < length nodes.now }
    ensures site { OnOk result
        (Adds site.old site.new [] [] (task_seen (types_of nodes.now) marks.now top)) }
    ensures brackets { OnOk result
        (brackets_known (types_of nodes.now) brackets.new
        ≡ brackets_known (types_of nodes.now) brackets.old
        ++ brackets_among (task_seen (types_of nodes.now) marks.now top)) }
{
    let mut tasks = Vec::new(alloc);
    tasks.push(top)?;
    while let Some(task) = tasks.pop() {
        write_own(alloc, site, brackets, nodes, facts, marks, task)?;
        push_parts(&mut tasks, facts, task, &nodes[task.node])?;
    }
    Ok(())
}

/// Adds the occurrences in a type, whose marks are at the beginning of `marks`. Returns the
/// remaining marks.
pub fn write_type<'m, 'a>(
    alloc: Global,
    found: &mut FoundOccurrences<'a>,
    marks: &'m [usize],
    ty: &'a Ty,
) -> Result<&'m [usize], Memory>
    ensures adds { OnOk result
        (AddsFound found.old found.new [] [] (in_type marks.now false ty.now)) }
    ensures rest { IfOk result (λ rest. rest.now ≡ drop (type_count ty.now) marks.now) }
{
    let nodes = ty.nodes();
    if nodes.is_empty() {
        return Ok(marks);
    }
    let facts = all_facts(alloc, nodes)?;
    let top = WalkTask {
        node: nodes.len() - 1,
        first: 0,
        in_tag: false,
        whole: true,
    };
    let mut brackets = List::new(alloc);
    walk(
        alloc,
        &mut found.site,
        &mut brackets,
        nodes,
        facts.as_slice(),
        marks,
        top,
    )?;
    write_brackets(found, nodes, brackets)?;
    Ok(skip(marks, total(fact_at(facts.as_slice(), top.node))))
}
