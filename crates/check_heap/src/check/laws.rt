//! The bound on the steps of a check for an example, as the contract of a lemma function.

ghost use Rattle.check_heap.specs.check.ByHand.{TakesSixtyOne};

/// Proves that checking a list of three items takes at most 61 steps. The list has five objects
/// with seven fields, and the list's table has five classes of types. A lemma function.
pub fn items_take_61_steps()
    ensures { TakesSixtyOne }
{}
