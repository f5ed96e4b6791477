//! Sets of numbers as sorted lists.

ghost use Rattle.types_table.specs.partition.Signature.{IsSetOf};

/// Sorts the numbers and removes repeats.
pub fn as_set(numbers: &mut Vec<usize>)
    ensures { IsSetOf numbers.old.items numbers.new.items }
{
    numbers.sort_unstable();
    numbers.dedup();
}
