//! Classifies a type after the abbreviations at its head are expanded.

ghost use Rattle.std.specs.Prelude.{◌≡◌, ◌<◌, ◌↔◌, IsTrue, length, IfOk};
ghost use Rattle.types_spec.specs.types.TypeNodes.{type_at};
ghost use Rattle.types_spec.specs.types.Head.{head};
ghost use Rattle.types_spec.specs.types.Shape.{is_float};
ghost use Rattle.types_spec.specs.types.WellFormed.{AreVariants};
ghost use Rattle.types_table.specs.store.Held.{Grows};
ghost use Rattle.types_build.specs.representation.Kind.{base_of, is_float_base, is_wildcard_base};

use crate::representation::bracket::has_bracket;
use crate::representation::replaced::expanded;
use crate::representation::spine::name;
use crate::representation::stored::Stored;
use base_data::model::Memory;
use std::alloc::Global;
use types_resolve::scope::SoundEnvironment;
use types_spec::types::decl::Predeclared;
use types_spec::types::predeclared::predeclared;
use types_spec::types::ty::Ty;
use types_table::store::TypeStore;

/// Returns true if a type expands to a polymorphic variant. May append types to `types`, even if
/// the result is `Memory`.
pub fn is_polymorphic_variant(
    alloc: Global,
    types: &mut TypeStore,
    decls: &SoundEnvironment<'_>,
    number: usize,
) -> Result<bool, Memory>
    requires number { number < length types.old }
    ensures ok { IfOk result
        (λ is. IsTrue is ↔ AreVariants (head decls.now (type_at types.old number))) }
    ensures grown { Grows types.old types.new }
{
    decls.holds();
    let at = expanded(alloc, types, decls, number)?;
    Ok(has_bracket(&Stored { types, number: at }))
}

/// Returns the predeclared type to which a type expands, without its arguments. Returns `None` if
/// the type does not expand to a predeclared type. May append types to `types`, even if the result
/// is `Memory`.
pub fn expanded_base(
    alloc: Global,
    types: &mut TypeStore,
    decls: &SoundEnvironment<'_>,
    t: &Ty,
) -> Result<Option<Predeclared>, Memory>
    ensures ok { IfOk result (λ base. base ≡ base_of decls.now t.now) }
    ensures grown { Grows types.old types.new }
{
    decls.holds();
    let number = types.add(alloc, t)?;
    let at = expanded(alloc, types, decls, number)?;
    match name(&Stored { types, number: at }) {
        Some(name) => Ok(predeclared(name)),
        None => Ok(None),
    }
}

/// Returns true if the predeclared type is `float`.
pub fn is_float_base(base: Option<Predeclared>) -> bool
    ensures { result ≡ is_float_base base }
{
    match base {
        Some(Predeclared::Float) => true,
        _ => false,
    }
}

/// Returns true if the predeclared type is `_`.
pub fn is_wildcard_base(base: Option<Predeclared>) -> bool
    ensures { result ≡ is_wildcard_base base }
{
    match base {
        Some(Predeclared::Any) => true,
        _ => false,
    }
}

/// Returns true if a type expands to `float`. May append types to `types`, even if the result is
/// `Memory`.
pub fn is_float(
    alloc: Global,
    types: &mut TypeStore,
    decls: &SoundEnvironment<'_>,
    t: &Ty,
) -> Result<bool, Memory>
    ensures ok { IfOk result (λ is. is ≡ is_float decls.now t.now) }
    ensures grown { Grows types.old types.new }
{
    let base = expanded_base(alloc, types, decls, t)?;
    Ok(is_float_base(base))
}
