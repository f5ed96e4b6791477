//! The law about readable names, as the contract of a lemma function without a body.

ghost use Rattle.cmd_build.specs.guess.ReadableNames.{EncodedAreReadable};

/// Proves that the names of a table are readable at the types of the table, if the check of the
/// table finds the names readable.
pub fn encoded_are_readable()
    ensures { EncodedAreReadable }
{}
