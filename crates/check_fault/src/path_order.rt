//! The order of paths: first by length, and for equal lengths by lexicographic order.

ghost use Rattle.std.specs.Prelude.{◌≡◌, ◌↔◌, length, IsTrue};
ghost use Rattle.types_spec.specs.types.Fault.{IsLexicallyBefore, IsBefore};

use base_data::model::path::Path;

/// Returns true if the first path is shorter. If the lengths are equal, returns true if the first
/// path is lexicographically smaller.
pub fn is_before(first: &Path, second: &Path) -> bool
    ensures { IsTrue result ↔ IsBefore first.now second.now }
{
    if first.len() == second.len() {
        is_smaller(first, second)
    } else {
        first.len() < second.len()
    }
}

/// Returns true if the first path is lexicographically smaller. The two paths must have equal
/// lengths.
fn is_smaller(first: &Path, second: &Path) -> bool
    requires { length first.now ≡ length second.now }
    ensures { IsTrue result ↔ IsLexicallyBefore first.now second.now }
{
    for i in 0..first.len() {
        if first.step(i) != second.step(i) {
            return first.step(i) < second.step(i);
        }
    }
    false
}
