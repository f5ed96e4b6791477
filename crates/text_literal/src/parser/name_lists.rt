//! Compares lists of names.

ghost use Rattle.std.specs.Prelude.{◌≡◌, map};
ghost use Rattle.text_literal.specs.parser.Starts as starts;

use base_data::model::list::List;

/// Returns true if the two lists of names are equal.
pub(crate) fn same_names(own: &[List<u8>], wanted: &[&[u8]]) -> bool
    ensures { result ≡ starts.same_names own.now (map (λ name. name.now) wanted.now) }
{
    if own.len() != wanted.len() {
        return false;
    }
    for i in 0..own.len() {
        if own[i].as_slice() != wanted[i] {
            return false;
        }
    }
    true
}
