//! A law of the definitions of answers. The function is a lemma function, which has no effect and
//! exists only for its contract.

ghost use Rattle.std.specs.Prelude.{List};
ghost use Rattle.types_spec.specs.declared.types.decl.Decl.{Decl};
ghost use Rattle.types_wellformed.specs.declarations.DeclarationAnswer.{HasOneAnswer, IsFileAnswer};
ghost use Rattle.types_wellformed.specs.declarations.DeclarationAnswer.{IsTypeAnswer};

/// States that a text of declarations has at most one answer, and that the text of a type over
/// declarations has at most one answer.
pub fn one_answer()
    ensures files { HasOneAnswer IsFileAnswer }
    ensures types { (decls : List Decl) → HasOneAnswer (IsTypeAnswer decls) }
{}
