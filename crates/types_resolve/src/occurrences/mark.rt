//! A list of marks: the lexeme indices of names, tags, variables and included types.

ghost use Rattle.std.specs.Prelude.{◌≡◌, ◌∷◌, ◌++◌, [], IfOk, OnOk, drop, slice_index};
ghost use Rattle.types_resolve.specs.occurrences.CountedFile.{placed};

use crate::scope::{LocatedName, Site};
use base_data::model::Memory;
use base_data::model::list::List;
use base_data::text::copied_name;
use std::alloc::Global;

/// Returns the mark with index `n`, or 0 if there is no mark with index `n`.
pub fn position_at(marks: &[usize], n: usize) -> usize
    ensures { result ≡ slice_index marks.now n }
{
    match marks.get(n) {
        Some(position) => *position,
        None => 0,
    }
}

/// Returns the marks after the first `n` marks.
pub fn skip(marks: &[usize], n: usize) -> &[usize]
    ensures { result.now ≡ drop n marks.now }
{
    if n < marks.len() { &marks[n..] } else { &[] }
}

/// Returns a name, located at the first of these marks.
pub fn placed(alloc: Global, marks: &[usize], name: &List<u8>) -> Result<LocatedName, Memory>
    ensures { IfOk result (λ p. p ≡ placed marks.now name.now) }
{
    Ok(LocatedName::new(position_at(marks, 0), copied_name(alloc, name)?))
}

/// Appends a row of names that must be distinct.
pub fn write_row(site: &mut Site, row: List<LocatedName>) -> Result<(), Memory>
    ensures { OnOk result (site.new ≡ record site.old { rows = site.old.rows ++ row ∷ [] }) }
{
    site.rows.push(row)
}

/// Returns the site without any names, uses or variables.
pub fn none(alloc: Global) -> Site
    ensures { result ≡ record { rows = []; carrying = []; uses = []; variables = [] } }
{
    Site {
        rows: List::new(alloc),
        carrying: List::new(alloc),
        uses: List::new(alloc),
        variables: List::new(alloc),
    }
}
