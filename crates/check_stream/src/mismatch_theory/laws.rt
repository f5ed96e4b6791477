//! The theorems as contracts of lemma functions.

ghost use Rattle.check_stream.specs.mismatch_theory.Laws.{RootMismatchIsLeast, OnlyWaysAreLeast};
ghost use Rattle.check_stream.specs.mismatch_theory.Laws.{OnlyMismatchIsLeast};
ghost use Rattle.check_stream.specs.mismatch_theory.MissedLaw.{OnlyMissedIsLeast};
ghost use Rattle.check_stream.specs.mismatch_theory.MissedPrefix.{OneMissedPrefixes};
ghost use Rattle.check_stream.specs.mismatch_theory.MissedLine.{MissedHasLine};

/// States when a mismatch is the first (least) fault. One case is that the root itself mismatches.
/// The second case is that only one trail leads to each mismatch, and no trail to a mismatch has a
/// smaller path.
pub fn only_mismatches_are_least()
    ensures root { RootMismatchIsLeast }
    ensures many { OnlyWaysAreLeast }
    ensures one { OnlyMismatchIsLeast }
{}

/// States when the mismatch of one token is the first fault. All other tokens must satisfy their
/// requirements, and no reference may lead back to a block of the mismatched token's trail.
pub fn only_missed_is_least()
    ensures { OnlyMissedIsLeast }
{}

/// States that bytes begin with a value whose first fault is a given mismatch. The streaming check
/// must find exactly the given mismatch, and no reference may lead back to a block of the
/// mismatch's trail.
pub fn one_missed_prefixes()
    ensures { OneMissedPrefixes }
{}

/// States that the trail, the type and the token of a mismatch determine the output line of a value
/// whose first fault is the mismatch.
pub fn missed_has_line()
    ensures { MissedHasLine }
{}
