//! The variable, name or bracket with which a type begins, as an occurrence.

ghost use Rattle.std.specs.Prelude.{◌≡◌, ◌<◌, ◌++◌, ◌∷◌, [], OnOk, length, drop};
ghost use Rattle.std.specs.List.{filter_map};
ghost use Rattle.types_spec.specs.types.TypeNodes.{types_of, type_at, AreOrdered};
ghost use Rattle.types_spec.specs.types.Scope.{written_tag};
ghost use Rattle.types_resolve.specs.occurrences.Counted.{items_in};
ghost use Rattle.types_resolve.specs.occurrences.Adds.{Adds};
ghost use Rattle.types_resolve.specs.scope.TypeBrackets.{brackets_among, brackets_known};
ghost use Rattle.types_resolve.specs.occurrences.Facts.{AreFacts};
ghost use Rattle.types_resolve.specs.occurrences.Walk.{task_own};

use crate::occurrences::fact::{Facts, fact_at};
use crate::occurrences::items::items_of;
use crate::occurrences::mark::{position_at, write_row};
use crate::occurrences::row::row_of;
use crate::occurrences::walk::WalkTask;
use crate::scope::{BracketItem, LocatedName, Site, TypeUse};
use base_data::model::Memory;
use base_data::model::list::List;
use base_data::text::copied_name;
use std::alloc::Global;
use types_spec::types::ty::TypeTreeNode;

/// Appends a variable and its lexeme to the occurrences.
fn write_variable(
    alloc: Global,
    site: &mut Site,
    position: usize,
    name: &List<u8>,
) -> Result<(), Memory>
    ensures { OnOk result
        (site.new
        ≡ record site.old { variables = site.old.variables ++ (position, name.now) ∷ [] }) }
{
    site.variables
        .push(LocatedName::new(position, copied_name(alloc, name)?))
}

/// Appends a use of a type name to a site.
fn write_use(site: &mut Site, used: TypeUse) -> Result<(), Memory>
    ensures { OnOk result (site.new ≡ record site.old { uses = site.old.uses ++ used ∷ [] }) }
{
    site.uses.push(used)
}

/// Appends the bracket with which a task's type begins.
fn write_bracket(
    alloc: Global,
    site: &mut Site,
    brackets: &mut List<List<BracketItem>>,
    nodes: &[TypeTreeNode],
    facts: &[Facts],
    marks: &[usize],
    task: WalkTask,
) -> Result<(), Memory>
    requires ordered { AreOrdered nodes.now }
    requires facts { AreFacts (types_of nodes.now) (length nodes.now) facts.now }
    requires task { task.node < length nodes.now }
    ensures site { OnOk result
        (site.new
        ≡ record site.old {
          rows = site.old.rows
              ++ filter_map written_tag
              (items_in (drop task.first marks.now)
              (type_at (types_of nodes.now) task.node))
              ∷ [];
        }) }
    ensures brackets { OnOk result
        (brackets_known (types_of nodes.now) brackets.new
        ≡ brackets_known (types_of nodes.now) brackets.old
        ++ items_in (drop task.first marks.now) (type_at (types_of nodes.now) task.node)
        ∷ []) }
{
    let items = items_of(alloc, nodes, facts, marks, task.node, task.first)?;
    write_row(site, row_of(alloc, nodes, items.as_slice())?)?;
    brackets.push(items)
}

/// Appends the occurrence with which a task's type begins, if the task's `whole` is true.
pub fn write_own(
    alloc: Global,
    site: &mut Site,
    brackets: &mut List<List<BracketItem>>,
    nodes: &[TypeTreeNode],
    facts: &[Facts],
    marks: &[usize],
    task: WalkTask,
) -> Result<(), Memory>
    requires ordered { AreOrdered nodes.now }
    requires facts { AreFacts (types_of nodes.now) (length nodes.now) facts.now }
    requires task { task.node < length nodes.now }
    ensures site { OnOk result
        (Adds site.old site.new [] [] (task_own (types_of nodes.now) marks.now task)) }
    ensures brackets { OnOk result
        (brackets_known (types_of nodes.now) brackets.new
        ≡ brackets_known (types_of nodes.now) brackets.old
        ++ brackets_among (task_own (types_of nodes.now) marks.now task)) }
{
    if !task.whole {
        return Ok(());
    }
    let known = fact_at(facts, task.node);
    let position = position_at(marks, task.first.saturating_add(known.inner));
    match &nodes[known.base] {
        TypeTreeNode::Variable(x) => write_variable(alloc, site, position, x),
        TypeTreeNode::Named(x) => {
            let used = TypeUse {
                position,
                name: copied_name(alloc, x)?,
                arguments: known.arguments,
                grows: known.grows,
                in_tag: task.in_tag,
            };
            write_use(site, used)
        }
        TypeTreeNode::Bracket => write_bracket(alloc, site, brackets, nodes, facts, marks, task),
        _ => Ok(()),
    }
}
