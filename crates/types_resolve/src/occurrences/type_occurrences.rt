//! The occurrences in the text of a type.

ghost use Rattle.std.specs.Prelude.{IfOk, false};
ghost use Rattle.types_resolve.specs.occurrences.Counted.{in_type};
ghost use Rattle.types_resolve.specs.scope.Sites.{IsTypeSite};
ghost use Rattle.types_resolve.specs.scope.TypeBrackets.{AreBrackets};

use crate::occurrences::found_occurrences::{FoundOccurrences, nothing};
use crate::occurrences::walk::write_type;
use crate::scope::{Site, TypeBrackets, TypeSite};
use base_data::model::Memory;
use base_data::model::list::List;
use std::alloc::Global;
use types_spec::types::ty::Ty;

/// The occurrences found in the text of a type.
#[derive(Drop)]
pub struct TypeFound<'a> {
    pub site: TypeSite,
    pub brackets: List<TypeBrackets<'a>>,
}

/// Returns the occurrences in a type whose marks are `marks`.
pub fn type_site<'a>(alloc: Global, marks: &[usize], ty: &'a Ty) -> Result<TypeFound<'a>, Memory>
    ensures site { IfOk result (λ found. IsTypeSite found.site (in_type marks.now false ty.now)) }
    ensures brackets { IfOk result
        (λ found. AreBrackets found.brackets (in_type marks.now false ty.now)) }
{
    let mut found = nothing(alloc);
    write_type(alloc, &mut found, marks, ty)?;
    let FoundOccurrences { site, brackets } = found;
    let Site { rows, uses, .. } = site;
    Ok(TypeFound {
        site: TypeSite { rows, uses },
        brackets,
    })
}
