//! Laws over the definitions, as contracts of lemma functions.

ghost use Rattle.cmd_scan.specs.found_positions.Laws.{HasOneList, ArePositionsOfAll};

/// Proves that each input has exactly one list of positions under each limit.
pub fn one_list()
    ensures { HasOneList }
{}

/// Proves that a value is encoded at each position of the list, with the stated length, and that
/// positions do not overlap. A value that is encoded at another offset begins inside one of the
/// positions.
pub fn positions_of_all()
    ensures { ArePositionsOfAll }
{}
