//! Lists of numbers, one list for each class or for each number.

ghost use Rattle.std.specs.Prelude.{◌≡◌, ◌<◌, ◌≤◌, ◌↔◌, IsTrue, length, vec_len, slice_index, IfOk};
ghost use Rattle.std.specs.Prelude.{OnOk};
ghost use Rattle.types_table.specs.partition.Lists.{IsWritten, IsTaken, HasRooms, IsOfClass};
ghost use Rattle.types_table.specs.partition.Lists.{IsShorter};

use crate::partition::set::as_set;
use base_data::model::Memory;
use std::alloc::Global;
use std::mem;

/// Appends `number` to the list at index `at`.
pub fn write(lists: &mut Vec<Vec<usize>>, at: usize, number: usize) -> Result<(), Memory>
    requires { at < vec_len lists.old }
    ensures { OnOk result (IsWritten lists.old.items at number lists.new.items) }
{
    lists[at].push(number)?;
    Ok(())
}

/// Removes all numbers of the list at index `at` and returns them.
pub fn taken(alloc: Global, lists: &mut Vec<Vec<usize>>, at: usize) -> Vec<usize>
    requires { at < vec_len lists.old }
    ensures { IsTaken lists.old.items at result.items lists.new.items }
{
    mem::replace(&mut lists[at], Vec::new(alloc))
}

/// Keeps, in the list of class `wanted`, only the numbers that have class `wanted`, each number
/// once.
pub fn shorten(
    alloc: Global,
    lists: &mut Vec<Vec<usize>>,
    class: &[usize],
    wanted: usize,
) -> Result<(), Memory>
    requires { wanted < vec_len lists.old }
    ensures { OnOk result (IsShorter class.now wanted lists.old.items lists.new.items) }
{
    let shorter = of_class(alloc, lists[wanted].as_slice(), class, wanted)?;
    lists[wanted] = shorter;
    Ok(())
}

/// Appends empty lists until there are `many` lists.
pub fn make_rooms(alloc: Global, lists: &mut Vec<Vec<usize>>, many: usize) -> Result<(), Memory>
    requires { vec_len lists.old ≤ many }
    ensures { OnOk result (HasRooms lists.old.items many lists.new.items) }
{
    for _room in lists.len()..many {
        lists.push(Vec::new(alloc))?;
    }
    Ok(())
}

/// Returns the numbers of a list that have class `wanted`, in increasing order and without repeats.
pub fn of_class(
    alloc: Global,
    numbers: &[usize],
    class: &[usize],
    wanted: usize,
) -> Result<Vec<usize>, Memory>
    ensures { IfOk result (λ v. IsOfClass numbers.now class.now wanted v.items) }
{
    let mut found = Vec::new(alloc);
    for number in numbers {
        if has_class(class, *number, wanted) {
            found.push(*number)?;
        }
    }
    as_set(&mut found);
    Ok(found)
}

/// Returns true if the number has class `wanted`.
fn has_class(class: &[usize], number: usize, wanted: usize) -> bool
    ensures { IsTrue result
        ↔ ((number < length class.now) × (slice_index class.now number ≡ wanted)) }
{
    match class.get(number) {
        Some(found) => *found == wanted,
        None => false,
    }
}
