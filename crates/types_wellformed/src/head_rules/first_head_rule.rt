//! Finds the first violation in a text of a rule that depends on heads.

ghost use Rattle.std.specs.Prelude.{◌≡◌, List as Seq, IfOk, option_map};
ghost use Rattle.types_spec.specs.types.WellFormed.{AreSound};
ghost use Rattle.types_spec.specs.types.Occurrence.{DeclPositions, Occurrence};
ghost use Rattle.types_spec.specs.types.Scope.{BreaksInFile, BreaksInType, decls_of};
ghost use Rattle.types_spec.specs.types.Scope.{declared_names};
ghost use Rattle.types_resolve.specs.scope.TypeBrackets.{AreBrackets, AreFileBrackets};
ghost use Rattle.types_wellformed.specs.head_rules.Broken.{IsFirstOfHeads, FileHashes, TypeHashes};
ghost use Rattle.types_wellformed.specs.head_rules.Rules.{AreAllWithin, brackets_at, BracketsBreak};
ghost use Rattle.types_wellformed.specs.head_rules.Rules.{BracketsHash};

use crate::head_rules::apart::stand_apart;
use crate::head_rules::bracket_numbers::{number_brackets, number_declared};
use crate::head_rules::broken::HeadBreak;
use crate::head_rules::flat_records::least_flat;
use crate::head_rules::item::NumberedItem;
use crate::head_rules::mixed::least_mixed;
use crate::head_rules::tag_conflicts::first_of_tags;
use crate::head_rules::tags::tagged_brackets;
use crate::head_rules::variant::least_not_variant;
use base_data::model::Memory;
use base_data::model::list::List;
use std::alloc::Global;
use types_resolve::scope::{LocatedName, SoundEnvironment, TypeBrackets};
use types_spec::types::decl::Decl;
use types_table::store::TypeStore;

/// Returns the first rule on brackets that is broken, at the least lexeme. The function gathers the
/// tags of each bracket only if the written tags could conflict.
fn first_of_brackets(
    alloc: Global,
    types: &mut TypeStore,
    decls: &SoundEnvironment<'_>,
    brackets: &[List<NumberedItem>],
) -> Result<Option<HeadBreak>, Memory>
    requires within { AreAllWithin types.old brackets.now }
    ensures { let all = brackets_at types.old brackets.now in
        IfOk result (IsFirstOfHeads (BracketsBreak decls.now all) (BracketsHash decls.now all)) }
{
    if let Some(position) = least_not_variant(alloc, types, decls, brackets)? {
        return Ok(Some(HeadBreak::NotVariant(position)));
    }
    if stand_apart(alloc, types, decls.all(), brackets)? {
        return Ok(None);
    }
    let tagged = tagged_brackets(alloc, types, decls, brackets)?;
    first_of_tags(alloc, tagged.as_slice())
}

/// Returns the violation of the rule on mixed records at the lexeme `position`, or `None` if there
/// is no lexeme.
fn mixed_break(position: Option<usize>) -> Option<HeadBreak>
    ensures { result ≡ option_map (λ k. HeadBreak.MixedRecord k) position }
{
    match position {
        Some(k) => Some(HeadBreak::MixedRecord(k)),
        None => None,
    }
}

/// Returns the first rule depending on heads that a file breaks, given the types and the lexemes of
/// the declared names.
fn first_of_file(
    alloc: Global,
    types: &mut TypeStore,
    decls: &SoundEnvironment<'_>,
    names: &[LocatedName],
    brackets: &[List<TypeBrackets<'_>>],
) -> Result<Option<HeadBreak>, Memory>
    ghost all: { Seq DeclPositions }
    requires decls { decls.now ≡ decls_of all }
    requires names { names.now ≡ declared_names all }
    requires brackets { AreFileBrackets brackets.now all }
    ensures { IfOk result (IsFirstOfHeads (BreaksInFile all) (FileHashes all)) }
{
    let numbered = number_declared(alloc, types, brackets)?;
    if let Some(found) = first_of_brackets(alloc, types, decls, numbered.as_slice())? {
        return Ok(Some(found));
    }
    if let Some(position) = least_flat(alloc, types, decls, names)? {
        return Ok(Some(HeadBreak::FloatInGroup(position)));
    }
    let mixed = least_mixed(alloc, types, decls, names)?;
    Ok(mixed_break(mixed))
}

/// Returns the first rule depending on heads that a type breaks, given the type's brackets.
fn first_of_type(
    alloc: Global,
    types: &mut TypeStore,
    decls: &SoundEnvironment<'_>,
    brackets: &[TypeBrackets<'_>],
) -> Result<Option<HeadBreak>, Memory>
    ghost occurrences: { Seq Occurrence }
    requires brackets { AreBrackets brackets.now occurrences }
    ensures { IfOk result
        (IsFirstOfHeads (BreaksInType decls.now occurrences) (TypeHashes decls.now occurrences)) }
{
    let numbered = number_brackets(alloc, types, brackets)?;
    first_of_brackets(alloc, types, decls, numbered.as_slice())
}

/// Returns the first rule depending on heads that the text of a file breaks, at the least lexeme.
/// Returns `None` if the text breaks no rule depending on heads.
pub fn first_head_break(
    alloc: Global,
    decls: &[Decl],
    names: &[LocatedName],
    brackets: &[List<TypeBrackets<'_>>],
) -> Result<Option<HeadBreak>, Memory>
    ghost all: { Seq DeclPositions }
    requires decls { decls.now ≡ decls_of all }
    requires names { names.now ≡ declared_names all }
    requires brackets { AreFileBrackets brackets.now all }
    requires sound { AreSound decls.now }
    ensures { IfOk result (IsFirstOfHeads (BreaksInFile all) (FileHashes all)) }
{
    let environment = SoundEnvironment::new(alloc, decls)?;
    let mut types = TypeStore::new(alloc);
    first_of_file(alloc, &mut types, &environment, names, brackets)
}

/// Returns the first rule depending on heads that the text of a type breaks, at the least lexeme.
/// Returns `None` if the text breaks no rule depending on heads.
pub fn first_head_break_in_type(
    alloc: Global,
    decls: &[Decl],
    brackets: &[TypeBrackets<'_>],
) -> Result<Option<HeadBreak>, Memory>
    ghost occurrences: { Seq Occurrence }
    requires brackets { AreBrackets brackets.now occurrences }
    requires sound { AreSound decls.now }
    ensures { IfOk result
        (IsFirstOfHeads (BreaksInType decls.now occurrences) (TypeHashes decls.now occurrences)) }
{
    let environment = SoundEnvironment::new(alloc, decls)?;
    let mut types = TypeStore::new(alloc);
    first_of_type(alloc, &mut types, &environment, brackets)
}
