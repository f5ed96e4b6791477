//! Partition refinement, one class at a time.

ghost use Rattle.std.specs.Prelude.{◌≡◌, ◌<◌, ◌++◌, ◌∷◌, [], vec_len, IfOk, OnOk};
ghost use Rattle.types_table.specs.partition.Lists.{KeepsMembers};
ghost use Rattle.types_table.specs.partition.Users.{AreUsers};
ghost use Rattle.types_table.specs.partition.Refinement.{IsInspection, IsUnderWay, PartsNoEqual};
ghost use Rattle.types_table.specs.partition.Start.{IsUnderWayAt, IsOpenAt};

use crate::partition::class_inspection::{Inspection, inspect_at_all, inspect_at_few};
use crate::partition::head_form::HeadForm;
use crate::partition::lists::{make_rooms, shorten, taken};
use crate::partition::moves::{add_members, move_all, name_positions};
use crate::partition::signature::class_at;
use crate::partition::waits::mark_users;
use base_data::model::Memory;
use std::alloc::Global;

/// The state of the refinement.
#[derive(Drop)]
pub struct Refinement {
    /// The class of each number.
    pub class: Vec<usize>,
    /// For each class, the signature of the members that are not pending.
    pub signatures: Vec<Vec<usize>>,
    /// For each class, a list that contains all members of the class. The list of a class may also
    /// contain numbers that left the class after all members were last inspected.
    pub members: Vec<Vec<usize>>,
    /// For each class, the pending members, which must be inspected.
    pub waiting: Vec<Vec<usize>>,
    /// For each class, the number of its members.
    pub counts: Vec<usize>,
    /// The classes with pending members.
    pub todo: Vec<usize>,
}

/// Splits a class by the signatures of its pending members. Takes at most two steps for each
/// pending member, and one step for each part of the heads of these members.
pub fn turn(
    alloc: Global,
    forms: &[HeadForm],
    users: &[Vec<usize>],
    refinement: &mut Refinement,
    class: usize,
) -> Result<(), Memory>
    requires users { AreUsers forms.now users.now }
    requires under_way { IsUnderWay forms.now refinement.old.class.items
        refinement.old.signatures.items refinement.old.members.items refinement.old.waiting.items
        (refinement.old.todo.items ++ class ∷ []) }
    ensures under_way { OnOk result (IsUnderWayAt forms.now refinement.new) }
    ensures keeps { OnOk result
        (PartsNoEqual forms.now refinement.old.class.items refinement.new.class.items) }
{
    let waited = taken(alloc, &mut refinement.waiting, class);
    shorten_members(alloc, refinement, waited.as_slice(), class)?;
    part(alloc, forms, users, refinement, waited.as_slice(), class)?;
    Ok(())
}

/// If all members of a class will be inspected, removes the numbers that left the class from its
/// list. Takes one step for each member, and one for each number that left after the last
/// inspection of all members. A class that shrinks slowly is not scanned completely in every turn.
fn shorten_members(
    alloc: Global,
    refinement: &mut Refinement,
    waited: &[usize],
    parted: usize,
) -> Result<(), Memory>
    requires { parted < vec_len refinement.old.members }
    ensures class { refinement.new.class ≡ refinement.old.class }
    ensures signatures { refinement.new.signatures ≡ refinement.old.signatures }
    ensures waiting { refinement.new.waiting ≡ refinement.old.waiting }
    ensures todo { refinement.new.todo ≡ refinement.old.todo }
    ensures members { OnOk result
        (KeepsMembers refinement.old.class.items refinement.old.members.items
        refinement.new.members.items) }
{
    if waits_few(refinement, waited, parted) {
        return Ok(());
    }
    shorten(
        alloc,
        &mut refinement.members,
        refinement.class.as_slice(),
        parted,
    )?;
    Ok(())
}

/// Returns true if fewer than half of the members of a class are pending.
fn waits_few(refinement: &Refinement, waited: &[usize], parted: usize) -> bool {
    waited.len() < count_of(refinement.counts.as_slice(), parted) / 2
}

/// Splits a class by the signatures of its inspected members.
fn part(
    alloc: Global,
    forms: &[HeadForm],
    users: &[Vec<usize>],
    refinement: &mut Refinement,
    waited: &[usize],
    parted: usize,
) -> Result<(), Memory>
    requires users { AreUsers forms.now users.now }
    requires open { IsOpenAt forms.now refinement.old waited.now parted }
    ensures under_way { OnOk result (IsUnderWayAt forms.now refinement.new) }
    ensures keeps { OnOk result
        (PartsNoEqual forms.now refinement.old.class.items refinement.new.class.items) }
{
    let inspect = inspect_at(alloc, forms, refinement, waited, parted)?;
    let inspected = inspect.inspected.as_slice();
    let numbers = name_positions(
        alloc,
        &inspect.found,
        parted,
        inspect.kept,
        &mut refinement.signatures,
    )?;
    let many = refinement.signatures.len();
    make_rooms(alloc, &mut refinement.members, many)?;
    make_rooms(alloc, &mut refinement.waiting, many)?;
    let positions = inspect.positions.as_slice();
    move_all(
        &mut refinement.class,
        inspected,
        positions,
        numbers.as_slice(),
    );
    let class = refinement.class.as_slice();
    count_moves(&mut refinement.counts, class, inspected, parted)?;
    add_members(&mut refinement.members, class, inspected, parted)?;
    mark_users(
        &mut refinement.waiting,
        &mut refinement.todo,
        class,
        users,
        inspected,
        parted,
    )?;
    Ok(())
}

/// If fewer than half of the members of a class are pending, inspects only the pending members. If
/// at least half of the members are pending, inspects all members.
fn inspect_at(
    alloc: Global,
    forms: &[HeadForm],
    refinement: &Refinement,
    waited: &[usize],
    parted: usize,
) -> Result<Inspection, Memory>
    requires { IsOpenAt forms.now refinement.now waited.now parted }
    ensures { IfOk result (IsInspection forms.now refinement.now.class.items parted) }
{
    let class = refinement.class.as_slice();
    let signatures = refinement.signatures.as_slice();
    if waits_few(refinement, waited, parted) {
        let inspect = inspect_at_few(alloc, forms, class, signatures, waited, parted)?;
        return Ok(inspect);
    }
    let members = refinement.members[parted].as_slice();
    let inspect = inspect_at_all(alloc, forms, class, signatures, members, parted)?;
    Ok(inspect)
}

/// Returns the number of members of a class.
fn count_of(counts: &[usize], class: usize) -> usize {
    match counts.get(class) {
        Some(count) => *count,
        None => 0,
    }
}

/// Updates the member counts of all classes after a class was split.
fn count_moves(
    counts: &mut Vec<usize>,
    class: &[usize],
    inspected: &[usize],
    left: usize,
) -> Result<(), Memory> {
    for number in inspected {
        let to = class_at(class, *number);
        if to != left {
            count_move(counts, left, to)?;
        }
    }
    Ok(())
}

/// Decrements the count of one class and increments the count of another.
fn count_move(counts: &mut Vec<usize>, from: usize, to: usize) -> Result<(), Memory> {
    for _class in counts.len()..to.saturating_add(1) {
        counts.push(0)?;
    }
    if from < counts.len() {
        counts[from] = counts[from].saturating_sub(1);
    }
    if to < counts.len() {
        counts[to] = counts[to].saturating_add(1);
    }
    Ok(())
}
