//! The theorem as the contract of a lemma function.

ghost use Rattle.check_stream.specs.theory.Laws.{PassesTypePrefixes, NotedPassesTypePrefixes};

/// States that the streaming check is sound. If the pass reaches the end of a value and no position
/// is open, then the bytes begin with a value of the type. The second clause states soundness for a
/// pass that recorded second types of flat blocks.
pub fn passes_type_prefixes()
    ensures plain { PassesTypePrefixes }
    ensures noted { NotedPassesTypePrefixes }
{}
