//! Laws of the definitions. A lemma function does nothing at run time: its contract is a law.

ghost use Rattle.edit_values.specs.GraftLaws.{GraftsAreTheSame, GraftsHaveOneAnswer};
ghost use Rattle.edit_values.specs.GraftLaws.{TablesGraftAgree};
ghost use Rattle.edit_values.specs.WildcardLaws.{EditsLeaveWildcards};
ghost use Rattle.edit_values.specs.Laws.{EditsHaveOneAnswer, TablesEditAgree};
ghost use Rattle.edit_values.specs.LineLaws.{TablesAnswerLinesAgree};
ghost use Rattle.edit_values.specs.WorkedEdits.{WorkedEditRows};

/// Each edit of a value has at most one answer.
pub fn edits_have_one_answer()
    ensures { EditsHaveOneAnswer }
{}

/// The answer to an edit by the numbers of a table corresponds to the answer by the types.
pub fn tables_edit_agree()
    ensures { TablesEditAgree }
{}

/// Worked edits have the expected results, or the expected reasons for a refusal.
pub fn worked_edits_are_made()
    ensures { WorkedEditRows }
{}

/// A graft writes a value that is isomorphic to the copied part and consists of new objects. The
/// whole value has its type afterwards.
pub fn grafts_are_the_same()
    ensures { GraftsAreTheSame }
{}

/// Each graft has at most one answer.
pub fn grafts_have_one_answer()
    ensures { GraftsHaveOneAnswer }
{}

/// The answer to a graft by the numbers of a table corresponds to the answer by the types.
pub fn tables_graft_agree()
    ensures { TablesGraftAgree }
{}

/// The answer to a line of a script by the numbers of a table corresponds to the answer by the
/// types.
pub fn tables_answer_lines_agree()
    ensures { TablesAnswerLinesAgree }
{}

/// Script lines, including grafts, do not change an object to which no path leads. In particular,
/// script lines do not change an object that only wildcards reach.
pub fn edits_leave_wildcards()
    ensures { EditsLeaveWildcards }
{}
