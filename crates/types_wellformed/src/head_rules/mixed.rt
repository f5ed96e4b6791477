//! Finds mixed records. A mixed record has fields of type `float` and of type `_`, and no other
//! fields.

ghost use Rattle.std.specs.Prelude.{◌≡◌, length, IfOk};
ghost use Rattle.types_spec.specs.types.Scope.{is_mixed, is_mixed_body};
ghost use Rattle.types_resolve.specs.scope.Least.{IsLeast};
ghost use Rattle.types_wellformed.specs.head_rules.Rules.{IsMixedDecl, SomeDeclBreaks};

use base_data::model::Memory;
use std::alloc::Global;
use types_build::representation::{expanded_base, is_float_base, is_wildcard_base};
use types_resolve::scope::{LocatedName, SoundEnvironment, earliest, position_if};
use types_spec::types::decl::{Body, Decl, Field};
use types_table::store::TypeStore;

/// Returns true if fields expand to `float` and to `_`, and to no other type.
fn is_mixed(
    alloc: Global,
    types: &mut TypeStore,
    decls: &SoundEnvironment<'_>,
    fields: &[Field],
) -> Result<bool, Memory>
    ensures { IfOk result (λ is. is ≡ is_mixed decls.now fields.now) }
{
    let mut floats = false;
    let mut wildcards = false;
    for field in fields {
        let base = expanded_base(alloc, types, decls, &field.ty)?;
        if is_float_base(base) {
            floats = true;
        } else if is_wildcard_base(base) {
            wildcards = true;
        } else {
            return Ok(false);
        }
    }
    Ok(floats && wildcards)
}

/// Returns true if a declaration is a mixed record.
fn is_mixed_decl(
    alloc: Global,
    types: &mut TypeStore,
    decls: &SoundEnvironment<'_>,
    decl: &Decl,
) -> Result<bool, Memory>
    ensures { IfOk result (λ is. is ≡ is_mixed_body decls.now decl.now.body) }
{
    match &decl.body {
        Body::Record(fields) => is_mixed(alloc, types, decls, fields.as_slice()),
        _ => Ok(false),
    }
}

/// Returns the least lexeme of the name of a mixed record. Returns `None` if no record is mixed.
pub fn least_mixed(
    alloc: Global,
    types: &mut TypeStore,
    decls: &SoundEnvironment<'_>,
    names: &[LocatedName],
) -> Result<Option<usize>, Memory>
    requires named { length decls.now ≡ length names.now }
    ensures { IfOk result
        (IsLeast (SomeDeclBreaks (IsMixedDecl decls.now) decls.now names.now)) }
{
    let mut best = None;
    for i in 0..decls.len() {
        let mixed = is_mixed_decl(alloc, types, decls, decls.at(i))?;
        best = earliest(best, position_if(mixed, names[i].position()));
    }
    Ok(best)
}
