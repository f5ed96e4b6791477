//! The type that the scan gives to the objects that it skips.

ghost use Rattle.std.specs.Prelude.{IfSome};
ghost use Rattle.types_table.specs.type_table.Made.{table_of};
ghost use Rattle.check_heap.specs.scan.Paths.{IsWildcard};

use crate::fits::is_asked;
use marshal_heap::heap::Heap;
use types_table::type_table::TypeTable;

/// Returns a type that does not constrain its values (a wildcard), if the table has one. If there
/// are more types than objects, returns `None`, because the search would cost more than it saves.
pub fn wildcard_type(heap: &Heap, table: &TypeTable) -> Option<usize>
    ensures { IfSome result (IsWildcard (table_of table.now)) }
{
    let types = table.count();
    if heap.count() < types as u64 {
        return None;
    }
    for i in 0..types {
        if !is_asked(table.shape(i)) {
            return Some(i);
        }
    }
    None
}
