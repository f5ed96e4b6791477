//! The law about the output line of a mismatch, as the contract of a lemma function.

ghost use Rattle.check_stream.specs.mismatch_search.MismatchLine.{FoundHasLine};

/// Proves that a mismatch that was found determines the output line of its value. `found_has_line`
/// is a lemma function, which does nothing at run time.
pub fn found_has_line()
    ensures { FoundHasLine }
{}
