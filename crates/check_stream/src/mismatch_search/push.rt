//! Appends one item to a vector.

ghost use Rattle.std.specs.Prelude.{◌≡◌, ◌++◌, ◌∷◌, [], OnOk};

use base_data::model::Memory;

/// Appends the item. If the capacity suffices, `push` calls no function. If memory runs out, fails
/// with `Memory`.
#[inline(always)]
pub fn push<T: Copy>(items: &mut Vec<T>, item: T) -> Result<(), Memory>
    ensures { OnOk result (items.new.items ≡ items.old.items ++ item ∷ []) }
{
    if items.len() < items.capacity() {
        items.push_reserved(item);
        return Ok(());
    }
    push_more(items, item)
}

/// Appends the item if the capacity does not suffice.
#[inline(never)]
fn push_more<T: Copy>(items: &mut Vec<T>, item: T) -> Result<(), Memory>
    ensures { OnOk result (items.new.items ≡ items.old.items ++ item ∷ []) }
{
    items.push(item)?;
    Ok(())
}
