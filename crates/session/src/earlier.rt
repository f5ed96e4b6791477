//! Earlier values of the input, kept for script lines that copy parts of them.

ghost use Rattle.std.specs.Prelude.{◌≡◌, ◌<◌, ◌++◌, ◌∷◌, [], Some, Any, OnOk, map, vec_len};
ghost use Rattle.std.specs.Vec.{vec_capacity};
ghost use Rattle.text_path.specs.LineOrder.{lines_of};
ghost use Rattle.marshal_read.specs.Reader.{LeadsReader};
ghost use Rattle.session.specs.Earlier.{AreInOrder, AreNamed, IsThere, after_action, after_copy};
ghost use Rattle.session.specs.Earlier.{all_after, with_made};

use base_data::model::Memory;
use marshal_read::{Reader, Value};
use std::alloc::Global;
use text_path::{Action, Script};

/// An earlier value after its script lines. `value` is `None` if no later line needs the value.
#[derive(Drop)]
pub struct Earlier {
    pub number: u64,
    /// The number of the last value into which a part of the earlier value is copied.
    pub last: u64,
    pub value: Option<Value>,
}

/// Returns the earlier value with number `number`, by binary search.
pub fn earlier_value(kept: &[Earlier], number: u64) -> &Value
    requires order { AreInOrder kept.now }
    requires there { IsThere kept.now number }
    ensures { Any (λ e. (e.number ≡ number) × (e.value ≡ Some result.now)) kept.now }
{
    let position = kept.partition_point(|made| made.number < number);
    match &kept[position].value {
        Some(value) => value,
        None => unreachable!(),
    }
}

/// Reserves memory for the value with number `number`, if a part of the value is copied into a
/// later value. `last` is the number of the last value into which a part is copied.
pub fn make_room(kept: &mut Vec<Earlier>, number: u64, last: u64) -> Result<(), Memory>
    ensures items { kept.new.items ≡ kept.old.items }
    ensures room { OnOk result (number < last → vec_len kept.new < vec_capacity kept.new) }
{
    if last <= number {
        return Ok(());
    }
    Ok(kept.reserve(1)?)
}

/// Appends a value to the kept values. The caller must have reserved memory for the value.
fn keep_made(kept: &mut Vec<Earlier>, made: Earlier)
    requires { vec_len kept.old < vec_capacity kept.old }
    ensures { kept.new.items ≡ kept.old.items ++ made ∷ [] }
{
    let _pushed = kept.push(made);
}

/// Frees the value if its number is `from`, and no part of the value is copied into a value after
/// `number`.
fn let_go(made: &mut Earlier, from: u64, number: u64)
    ensures { made.new ≡ after_copy from number made.old }
{
    if made.number != from {
        return;
    }
    if number < made.last {
        return;
    }
    made.value = None;
}

/// Finds the value with the number `from` by binary search. If no part of the value is copied into
/// a value after `number`, frees the value.
fn let_go_of(kept: &mut [Earlier], from: u64, number: u64)
    requires { AreInOrder kept.old }
    ensures { kept.new ≡ map (λ made. after_copy from number made) kept.old }
{
    let position = kept.partition_point(|made| made.number < from);
    if position < kept.len() {
        let_go(&mut kept[position], from, number);
    }
}

/// If a line of value `number` copies from a value, and no part of this source is copied into a
/// value after `number`, frees the source.
fn let_go_by(kept: &mut [Earlier], action: &Action, number: u64)
    requires { AreInOrder kept.old }
    ensures { kept.new ≡ map (after_action action.now number) kept.old }
{
    match action {
        Action::Edit(_) => {}
        Action::Graft(_, from, _) => let_go_of(kept, *from, number),
    }
}

/// Frees the values of which no part is copied into a value after `number`. Inspects only the
/// values from which the lines of value `number` copy.
fn drop_used(kept: &mut [Earlier], script: &Script, number: u64)
    requires order { AreInOrder kept.old }
    requires named { AreNamed number (lines_of number script.now.lines) kept.old }
    ensures { kept.new ≡ all_after number kept.old }
{
    let mut rest = script.lines_of(number);
    while let Some(line) = rest.next() {
        let_go_by(kept, &line.action, number);
    }
}

/// Cleans up after value `number` was edited. Frees the values from which no later line copies, and
/// keeps value `number` if a part of it is copied into a later value. Returns a reader for the next
/// value. If value `number` is not kept, the reader reuses the memory of value `number`.
pub fn next_reader(
    alloc: Global,
    limit: u64,
    kept: &mut Vec<Earlier>,
    script: &Script,
    number: u64,
    value: Value,
    last: u64,
) -> Reader
    requires room { number < last → vec_len kept.old < vec_capacity kept.old }
    requires order { AreInOrder kept.old.items }
    requires named { AreNamed number (lines_of number script.now.lines) kept.old.items }
    ensures leads { LeadsReader limit [] result }
    ensures kept { kept.new.items
        ≡ with_made (all_after number kept.old.items)
        (record { number = number; last = last; value = Some value }) }
{
    drop_used(kept.as_mut_slice(), script, number);
    if last <= number {
        return Reader::over(alloc, limit, value.heap);
    }
    let made = Earlier {
        number,
        last,
        value: Some(value),
    };
    keep_made(kept, made);
    Reader::new(alloc, limit)
}
