//! Pending numbers, by class.

ghost use Rattle.std.specs.Prelude.{ℕ, ◌<◌, ◌≢◌, length, vec_len, slice_index, OnOk, Contains};
ghost use Rattle.types_table.specs.partition.Lists.{Has, Keeps};
ghost use Rattle.types_table.specs.partition.Refinement.{IsReady, MarksUsers};

use crate::partition::lists::write;
use crate::partition::signature::class_at;
use base_data::model::Memory;

/// Marks as pending the users of all inspected numbers that left the class.
pub fn mark_users(
    waiting: &mut Vec<Vec<usize>>,
    todo: &mut Vec<usize>,
    class: &[usize],
    users: &[Vec<usize>],
    inspected: &[usize],
    left: usize,
) -> Result<(), Memory>
    requires within { (i : ℕ) → slice_index class.now i < vec_len waiting.old }
    requires ready { IsReady waiting.old.items todo.old.items }
    ensures keeps { OnOk result (Keeps waiting.old.items waiting.new.items) }
    ensures ready { OnOk result (IsReady waiting.new.items todo.new.items) }
    ensures marked { OnOk result
        (MarksUsers class.now users.now left inspected.now waiting.new.items) }
{
    for number in inspected {
        mark_users_of(waiting, todo, class, users, *number, left)?;
    }
    Ok(())
}

/// If a number left the class, marks the users of the number as pending.
fn mark_users_of(
    waiting: &mut Vec<Vec<usize>>,
    todo: &mut Vec<usize>,
    class: &[usize],
    users: &[Vec<usize>],
    number: usize,
    left: usize,
) -> Result<(), Memory>
    requires within { (i : ℕ) → slice_index class.now i < vec_len waiting.old }
    requires ready { IsReady waiting.old.items todo.old.items }
    ensures keeps { OnOk result (Keeps waiting.old.items waiting.new.items) }
    ensures ready { OnOk result (IsReady waiting.new.items todo.new.items) }
    ensures marked { OnOk result
        (slice_index class.now number ≢ left → (u : ℕ) → Has users.now number u
        → Has waiting.new.items (slice_index class.now u) u) }
{
    if class_at(class, number) == left {
        return Ok(());
    }
    if number >= users.len() {
        return Ok(());
    }
    mark_all(waiting, todo, class, users[number].as_slice())?;
    Ok(())
}

/// Marks numbers as pending.
fn mark_all(
    waiting: &mut Vec<Vec<usize>>,
    todo: &mut Vec<usize>,
    class: &[usize],
    numbers: &[usize],
) -> Result<(), Memory>
    requires within { (i : ℕ) → slice_index class.now i < vec_len waiting.old }
    requires ready { IsReady waiting.old.items todo.old.items }
    ensures keeps { OnOk result (Keeps waiting.old.items waiting.new.items) }
    ensures ready { OnOk result (IsReady waiting.new.items todo.new.items) }
    ensures marked { OnOk result
        ((u : ℕ) → Contains numbers.now u → Has waiting.new.items (slice_index class.now u) u) }
{
    for number in numbers {
        mark(waiting, todo, class_at(class, *number), *number)?;
    }
    Ok(())
}

/// Marks a number of a class as pending.
fn mark(
    waiting: &mut Vec<Vec<usize>>,
    todo: &mut Vec<usize>,
    class: usize,
    number: usize,
) -> Result<(), Memory>
    requires within { class < vec_len waiting.old }
    requires ready { IsReady waiting.old.items todo.old.items }
    ensures keeps { OnOk result (Keeps waiting.old.items waiting.new.items) }
    ensures ready { OnOk result (IsReady waiting.new.items todo.new.items) }
    ensures marked { OnOk result (Has waiting.new.items class number) }
{
    have_done(waiting.as_slice(), todo, class)?;
    write(waiting, class, number)?;
    Ok(())
}

/// Ensures that a class is in `todo`.
fn have_done(waiting: &[Vec<usize>], todo: &mut Vec<usize>, class: usize) -> Result<(), Memory>
    requires within { class < length waiting.now }
    requires ready { IsReady waiting.now todo.old.items }
    ensures ready { OnOk result (IsReady waiting.now todo.new.items) }
    ensures there { OnOk result (Contains todo.new.items class) }
{
    if !waiting[class].is_empty() {
        return Ok(());
    }
    todo.push(class)?;
    Ok(())
}
