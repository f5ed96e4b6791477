//! Computes the equivalence classes of equal numbers.

ghost use Rattle.std.specs.Prelude.{◌≡◌, ◌∷◌, [], ℕ, ◌<◌, length, slice_index, IfOk, Contains};
ghost use Rattle.types_spec.specs.types.Table.{head_at};
ghost use Rattle.types_spec.specs.types.Classes.{PartsBelow};
ghost use Rattle.types_table.specs.partition.Users.{AreUsers};
ghost use Rattle.types_table.specs.partition.Start.{IsUnderWayAt, IsParted};
ghost use Rattle.types_table.specs.partition.FoundClasses.{AreClasses};

use crate::partition::head_form::{HeadForm, forms_of};
use crate::partition::refinement::{Refinement, turn};
use crate::partition::users::users_of;
use base_data::model::Memory;
use std::alloc::Global;
use types_spec::types::head::HeadOf;

/// Returns the class of each number. Two numbers have the same class if and only if they are equal.
/// `all` holds the head of each number, and the parts of a head are numbers.
pub fn classes(alloc: Global, all: &[HeadOf<usize>]) -> Result<Vec<usize>, Memory>
    requires { PartsBelow (length all.now) (head_at all.now) }
    ensures { IfOk result (λ found. AreClasses all.now found.items) }
{
    let forms = forms_of(alloc, all)?;
    let users = users_of(alloc, forms.as_slice())?;
    let found = parted(alloc, forms.as_slice(), users.as_slice())?;
    Ok(found)
}

/// Refines the classes until no number is pending.
fn parted(alloc: Global, forms: &[HeadForm], users: &[Vec<usize>]) -> Result<Vec<usize>, Memory>
    requires { AreUsers forms.now users.now }
    ensures { IfOk result (λ class. IsParted forms.now class.items) }
{
    let mut refinement = start(alloc, forms)?;
    // A turn removes a class from `todo` or creates a class, and therefore the loop ends long
    // before `u64::MAX` turns.
    for _turn in 0..u64::MAX {
        match refinement.todo.pop() {
            Some(class) => turn(alloc, forms, users, &mut refinement, class)?,
            None => return Ok(class_of(refinement)),
        }
    }
    Err(Memory)
}

/// Returns the class of each number at the end of a refinement.
fn class_of(refinement: Refinement) -> Vec<usize>
    ensures { result ≡ refinement.class }
{
    let Refinement {
        class,
        signatures: _,
        members: _,
        waiting: _,
        counts: _,
        todo: _,
    } = refinement;
    class
}

/// Creates a single class that contains all numbers, all of them pending.
fn start(alloc: Global, forms: &[HeadForm]) -> Result<Refinement, Memory>
    ensures under_way { IfOk result (IsUnderWayAt forms.now) }
    ensures zero { IfOk result (λ p. (i : ℕ) → slice_index p.class.items i ≡ 0) }
{
    let many = forms.len();
    let class = zeros(alloc, many)?;
    let signatures = alone(alloc, Vec::new(alloc))?;
    let members = alone(alloc, numbers_below(alloc, many)?)?;
    let waiting = alone(alloc, numbers_below(alloc, many)?)?;
    let mut counts = Vec::new(alloc);
    counts.push(many)?;
    let mut todo = Vec::new(alloc);
    todo.push(0)?;
    Ok(Refinement {
        class,
        signatures,
        members,
        waiting,
        counts,
        todo,
    })
}

/// Returns a vector of `many` zeros.
fn zeros(alloc: Global, many: usize) -> Result<Vec<usize>, Memory>
    ensures many { IfOk result (λ v. length v.items ≡ many) }
    ensures zero { IfOk result (λ v. (i : ℕ) → slice_index v.items i ≡ 0) }
{
    let mut found = Vec::new(alloc);
    for _number in 0..many {
        found.push(0)?;
    }
    Ok(found)
}

/// Returns the numbers below `many`.
fn numbers_below(alloc: Global, many: usize) -> Result<Vec<usize>, Memory>
    ensures { IfOk result (λ v. (i : ℕ) → i < many → Contains v.items i) }
{
    let mut found = Vec::new(alloc);
    for number in 0..many {
        found.push(number)?;
    }
    Ok(found)
}

/// Returns a vector with `list` as its only element.
fn alone(alloc: Global, list: Vec<usize>) -> Result<Vec<Vec<usize>>, Memory>
    ensures { IfOk result (λ v. v.items ≡ list ∷ []) }
{
    let mut found = Vec::new(alloc);
    found.push(list)?;
    Ok(found)
}
