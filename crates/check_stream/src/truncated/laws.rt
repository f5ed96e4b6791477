//! The law of truncated values, as the contract of a lemma function.

ghost use Rattle.check_stream.specs.truncated.Laws.{UnderwayIsPrefix};

/// Proves that bytes are a prefix of a value. The bytes must consist of a header, complete tokens
/// and a part of a token for which the header has room. `underway_is_prefix` is a lemma function,
/// which does nothing at run time.
pub fn underway_is_prefix()
    ensures { UnderwayIsPrefix }
{}
