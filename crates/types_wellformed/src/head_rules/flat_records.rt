//! Finds records that are flat through an abbreviation of their own group.

ghost use Rattle.std.specs.Prelude.{◌≡◌, ◌↔◌, true, length, Contains, IfOk, IsTrue};
ghost use Rattle.types_spec.specs.types.TypeNodes.{type_at};
ghost use Rattle.types_spec.specs.types.Scope.{IsThrough, IsFlatThroughGroup};
ghost use Rattle.types_spec.specs.declared.types.decl.Field.{Field as Member};
ghost use Rattle.types_spec.specs.types.Shape.{is_float};
ghost use Rattle.types_resolve.specs.scope.Least.{IsLeast};
ghost use Rattle.types_table.specs.store.Held.{Grows};
ghost use Rattle.types_wellformed.specs.head_rules.Rules.{IsOwn, IsFlatDecl, SomeDeclBreaks};

use base_data::model::Memory;
use std::alloc::Global;
use types_build::representation::{Stored, is_float, name, nearer, none_known};
use types_resolve::scope::{LocatedName, SoundEnvironment, earliest, position_if};
use types_spec::types::decl::{Body, Decl, Field};
use types_spec::types::ty::Ty;
use types_table::store::TypeStore;

/// Returns true if an abbreviation of the group `group` is at the head of a type.
fn is_own(t: &Stored<'_>, decls: &SoundEnvironment<'_>, group: usize) -> bool
    ensures { IsTrue result ↔ IsOwn decls.now group (type_at t.now.types.now t.now.number) }
{
    let decl = match name(t) {
        Some(name) => decls.get(name),
        None => None,
    };
    match decl {
        Some(decl) => match &decl.body {
            Body::Abbreviation(_) => decl.group == group,
            _ => false,
        },
        None => false,
    }
}

/// Returns true if the expansions at the head of a type include the expansion of an abbreviation of
/// the group `group`.
fn is_through(
    alloc: Global,
    types: &mut TypeStore,
    decls: &SoundEnvironment<'_>,
    group: usize,
    t: &Ty,
) -> Result<bool, Memory>
    ensures ok { IfOk result (λ is. IsTrue is ↔ IsThrough decls.now group t.now) }
    ensures grown { Grows types.old types.new }
{
    decls.holds();
    let mut at = types.add(alloc, t)?;
    let mut known = none_known(alloc);
    'next: while !is_own(&Stored { types, number: at }, decls, group) {
        match nearer(alloc, types, decls, Some(group), &mut known, at)? {
            Some(next) => at = next,
            None => return Ok(false),
        }
    }
    Ok(true)
}

/// Returns true if the types of all fields expand to `float`.
fn are_floats(
    alloc: Global,
    types: &mut TypeStore,
    decls: &SoundEnvironment<'_>,
    fields: &[Field],
) -> Result<bool, Memory>
    ensures ok { IfOk result
        (λ are. IsTrue are
        ↔ ((f : Member) → Contains fields.now f → is_float decls.now f.ty ≡ true)) }
{
    for field in fields {
        if !is_float(alloc, types, decls, &field.ty)? {
            return Ok(false);
        }
    }
    Ok(true)
}

/// Returns true if the type of some field expands through an abbreviation of the group `group`.
fn some_through(
    alloc: Global,
    types: &mut TypeStore,
    decls: &SoundEnvironment<'_>,
    group: usize,
    fields: &[Field],
) -> Result<bool, Memory>
    ensures { IfOk result
        (λ some. IsTrue some
        ↔ ((f : Member) × Contains fields.now f × IsThrough decls.now group f.ty)) }
{
    for field in fields {
        if is_through(alloc, types, decls, group, &field.ty)? {
            return Ok(true);
        }
    }
    Ok(false)
}

/// Returns true if a declaration is a record that is flat through an abbreviation of its own group.
fn is_flat(
    alloc: Global,
    types: &mut TypeStore,
    decls: &SoundEnvironment<'_>,
    decl: &Decl,
) -> Result<bool, Memory>
    ensures { IfOk result
        (λ is. IsTrue is ↔ IsFlatThroughGroup decls.now decl.now.group decl.now.body) }
{
    let Body::Record(fields) = &decl.body else {
        return Ok(false);
    };
    let fields = fields.as_slice();
    if !are_floats(alloc, types, decls, fields)? {
        return Ok(false);
    }
    some_through(alloc, types, decls, decl.group, fields)
}

/// Returns the least lexeme of the name of a record that is flat through an abbreviation of its own
/// group. Returns `None` if no record is flat through its own group.
pub fn least_flat(
    alloc: Global,
    types: &mut TypeStore,
    decls: &SoundEnvironment<'_>,
    names: &[LocatedName],
) -> Result<Option<usize>, Memory>
    requires named { length decls.now ≡ length names.now }
    ensures { IfOk result
        (IsLeast (SomeDeclBreaks (IsFlatDecl decls.now) decls.now names.now)) }
{
    let mut best = None;
    for i in 0..decls.len() {
        let flat = is_flat(alloc, types, decls, decls.at(i))?;
        best = earliest(best, position_if(flat, names[i].position()));
    }
    Ok(best)
}
