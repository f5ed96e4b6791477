//! Checks rules on the uses of names.

ghost use Rattle.std.specs.Prelude.{◌≡◌, ◌↔◌, IsTrue, option_copied};
ghost use Rattle.types_spec.specs.types.Declarations.{arity_of};
ghost use Rattle.types_resolve.specs.scope.Breaks.{BreaksUse, UsesBreak, Later, OfGroup, IsOther};
ghost use Rattle.types_resolve.specs.scope.Least.{IsLeast};

use crate::scope::environment::Environment;
use crate::scope::least::{earliest, position_if};
use crate::scope::rule::UseRule;
use crate::scope::site::TypeUse;
use types_spec::types::decl::Decl;
use types_spec::types::predeclared::predeclared_arity;

/// Returns the number of arguments that a name takes, or `None` if the name is unknown.
fn arity(decls: &Environment<'_>, name: &[u8]) -> Option<usize>
    ensures { result ≡ arity_of decls.now name.now }
{
    match predeclared_arity(name) {
        Some(n) => Some(n),
        None => match decls.get(name) {
            Some(decl) => Some(decl.parameters.len()),
            None => None,
        },
    }
}

/// Returns true if `decl` is `None`, or if the declaration belongs to a later group than `group`.
fn is_later(decl: Option<&Decl>, group: Option<usize>) -> bool
    ensures { IsTrue result ↔ Later (option_copied decl.entry) group }
{
    match (decl, group) {
        (None, _) => true,
        (Some(_), None) => false,
        (Some(decl), Some(group)) => group < decl.group,
    }
}

/// Returns true if `decl` exists and belongs to the group `group`.
fn is_of_group(decl: Option<&Decl>, group: Option<usize>) -> bool
    ensures { IsTrue result ↔ OfGroup (option_copied decl.entry) group }
{
    match (decl, group) {
        (Some(decl), Some(group)) => decl.group == group,
        _ => false,
    }
}

/// Returns true if the arity is known and differs from the number of arguments.
fn is_other(arity: Option<usize>, arguments: usize) -> bool
    ensures { IsTrue result ↔ IsOther arity arguments }
{
    match arity {
        Some(n) => n != arguments,
        None => false,
    }
}

/// Returns true if a use breaks the rule. If the use is in a declaration, `group` is the group of
/// the declaration. If the use is in the text of a type, `group` is `None`.
fn breaks(rule: UseRule, decls: &Environment<'_>, group: Option<usize>, usage: &TypeUse) -> bool
    ensures { IsTrue result ↔ BreaksUse rule decls.now group usage.now }
{
    let name = usage.name.as_slice();
    match rule {
        UseRule::UnknownName => predeclared_arity(name).is_none()
            && is_later(decls.get(name), group),
        UseRule::Arity => is_other(arity(decls, name), usage.arguments),
        UseRule::Irregular => usage.grows && is_of_group(decls.get(name), group),
    }
}

/// Returns the least lexeme of a use that breaks the rule.
pub fn least_use(
    rule: UseRule,
    decls: &Environment<'_>,
    group: Option<usize>,
    uses: &[TypeUse],
) -> Option<usize>
    ensures { IsLeast (UsesBreak rule decls.now group uses.now) result }
{
    let mut best = None;
    for i in 0..uses.len() {
        let usage = &uses[i];
        let broken = breaks(rule, decls, group, usage);
        best = earliest(best, position_if(broken, usage.position));
    }
    best
}
