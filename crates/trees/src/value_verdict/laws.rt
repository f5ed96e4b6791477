//! The laws of verdicts, stated as contracts.

ghost use Rattle.trees.specs.value_verdict.Laws.{TablesJudgeTrees, TablesHaveTheVerdict};
ghost use Rattle.trees.specs.value_verdict.Laws.{SoundVerdictsReportSearchTrees};
ghost use Rattle.trees.specs.value_verdict.Laws.{SoundTableVerdictsReportSearchTrees};

use crate::search_trees::sound_trees_are_search_trees;

/// States that sets and maps can be checked with the table of a sound type over well-formed
/// declarations.
pub fn tables_judge_trees()
    ensures { TablesJudgeTrees }
{}

/// States that a verdict with a table is the verdict with the types of which the table was made.
pub fn tables_have_the_verdict()
    ensures { TablesHaveTheVerdict }
{}

/// Suppose a value has its type. Then the value's verdict is `sound` if and only if each set and
/// each map in the value is a search tree. A search tree is finite and balanced, its elements are
/// strictly increasing, and each node stores its correct height. The law holds for the verdict with
/// the type, and for the verdict with the type's table, which `trees` returns.
pub fn sound_verdicts_report_search_trees()
    ensures types { SoundVerdictsReportSearchTrees }
    ensures table { SoundTableVerdictsReportSearchTrees }
{
    sound_trees_are_search_trees();
    tables_have_the_verdict();
}
