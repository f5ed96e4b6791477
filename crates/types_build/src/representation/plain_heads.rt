//! Computes the head of a type that has no bracket or abbreviation at its head.

ghost use Rattle.std.specs.Prelude.{◌≡◌, IfOk, MatchOption};
ghost use Rattle.types_spec.specs.types.TypeNodes.{type_at};
ghost use Rattle.types_table.specs.store.BorrowedNode.{written_of};
ghost use Rattle.types_build.specs.representation.PlainHeads.{IsBracketed, IsPlainHead};
ghost use Rattle.types_build.specs.representation.PlainHeads.{head_of_root};

use crate::representation::spine::{parts, root};
use crate::representation::stored::Stored;
use base_data::model::Memory;
use base_data::model::list::List;
use base_data::text::copied;
use std::alloc::Global;
use types_spec::types::head::HeadOf;
use types_spec::types::predeclared::predeclared;
use types_table::store::TypeNode;

/// Returns the head of a type as written, or `None` if the type is a bracket.
pub fn plain(alloc: Global, t: &Stored<'_>) -> Result<Option<HeadOf<usize>>, Memory>
    ensures { IfOk result
        (λ h. MatchOption h (IsBracketed (type_at t.now.types.now t.now.number))
        (IsPlainHead t.now.types.now (type_at t.now.types.now t.now.number))) }
{
    let found = parts(alloc, t)?;
    of_root(alloc, t.types.node(root(t)), found)
}

/// Returns the head of a type, given the node of the type's root and the type's parts.
fn of_root(
    alloc: Global,
    root: TypeNode<'_>,
    found: Vec<usize>,
) -> Result<Option<HeadOf<usize>>, Memory>
    ensures { IfOk result (λ h. h ≡ head_of_root (written_of root.entry) found.items) }
{
    match root {
        TypeNode::Named(name) => match predeclared(name) {
            Some(base) => Ok(Some(HeadOf::Predeclared(base, List::of(found)))),
            None => Ok(Some(HeadOf::Datatype(copied(alloc, name)?, List::of(found)))),
        },
        TypeNode::Tuple => Ok(Some(HeadOf::Tuple(List::of(found)))),
        TypeNode::Variable(name) => {
            if found.is_empty() {
                Ok(Some(HeadOf::Variable(copied(alloc, name)?)))
            } else {
                Ok(Some(HeadOf::Absent))
            }
        }
        _ => {
            if found.is_empty() {
                Ok(None)
            } else {
                Ok(Some(HeadOf::Absent))
            }
        }
    }
}
