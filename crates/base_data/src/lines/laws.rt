//! The laws of lines and columns. Each function is a lemma function: the function has no effect and
//! exists only for its contract.

ghost use Rattle.base_data.specs.lines.Laws.{LinesReportPositions, FirstLinesCount};

/// States that no two positions of a text have equal lines and equal columns.
pub fn lines_report_positions()
    ensures { LinesReportPositions }
{}

/// States that a position that no line feed precedes is in line 1, with the column `position` plus
/// 1.
pub fn first_lines_count()
    ensures { FirstLinesCount }
{}
