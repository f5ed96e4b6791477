//! Laws of paths and scripts. Each function does nothing and exists only for its contract.

ghost use Rattle.std.specs.Prelude.{List, ℕ, Ok};
ghost use Rattle.text_path.specs.ParserAnswer.{HasOneAnswer};
ghost use Rattle.text_path.specs.ScriptAnswer.{AreEdits, AreInTime, HasOneScriptAnswer};
ghost use Rattle.text_path.specs.declared.edits.ScriptLine.{ScriptLine};

/// Proves that every text has exactly one answer as a path: a path or an error.
pub fn one_answer()
    ensures { (text : List ℕ) → HasOneAnswer text }
{}

/// Proves that every text has exactly one answer as a script: a script or an error.
pub fn one_script_answer()
    ensures { (text : List ℕ) → HasOneScriptAnswer text }
{}

/// Proves that each `graft` line of a valid script copies from a value before the edited value.
pub fn lines_in_time()
    ensures { (text : List ℕ) (lines : List ScriptLine) → AreEdits 1 text (Ok lines)
        → AreInTime lines }
{}
