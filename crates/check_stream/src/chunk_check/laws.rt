//! The laws of prefixes, as contracts of lemma functions.

ghost use Rattle.check_stream.specs.chunk_check.Laws.{PassingIsPrefix, PassingButIsPrefix};

/// Proves that bytes are a prefix of a value if they passed the streaming check up to a part of a
/// token for which there is room. `passing_is_prefix` is a lemma function.
pub fn passing_is_prefix()
    ensures { PassingIsPrefix }
{}

/// Proves that bytes are a prefix of a value if they passed, except for mismatches, up to a part of
/// a token for which there is room. `passing_but_is_prefix` is a lemma function.
pub fn passing_but_is_prefix()
    ensures { PassingButIsPrefix }
{}
