//! The lesser of two optional positions.

ghost use Rattle.std.specs.Prelude.{◌≡◌};
ghost use Rattle.types_resolve.specs.scope.Least.{earliest, position_if};

/// Returns the lesser of two positions. If only one of the two positions exists, returns the
/// existing position.
pub fn earliest(first: Option<usize>, second: Option<usize>) -> Option<usize>
    ensures { result ≡ earliest first second }
{
    match (first, second) {
        (None, _) => second,
        (Some(_), None) => first,
        (Some(j), Some(k)) => Some(j.min(k)),
    }
}

/// Returns `position` if `test` is true, and `None` if `test` is false.
pub fn position_if(test: bool, position: usize) -> Option<usize>
    ensures { result ≡ position_if test position }
{
    if test { Some(position) } else { None }
}
