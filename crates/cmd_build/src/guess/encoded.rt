//! Checks whether the names of types are readable, which means that the text of a value can be
//! parsed again.

ghost use Rattle.std.specs.Prelude.{ℕ, List as Seq, ◌≡◌, ◌<◌, Some, IsTrue, codes, length};
ghost use Rattle.std.specs.Prelude.{slice_get};
ghost use Rattle.std.specs.List.{list_all, position};
ghost use Rattle.std.specs.Str.{bytes_eq};
ghost use Rattle.types_lex.specs.Lexeme.{starts_lower, is_name_byte, Lower, Upper, IsForm};
ghost use Rattle.text_roundtrip.specs.literal_texts.Readable.{IsHead, AreFieldNames};
ghost use Rattle.text_roundtrip.specs.literal_texts.Readable.{IsConstantName};
ghost use Rattle.text_roundtrip.specs.literal_texts.Readable.{IsConstructorName};
ghost use Rattle.types_spec.specs.declared.types.names.ConstrNames.{ConstrNames};
ghost use Rattle.cmd_build.specs.guess.ReadableNames.{IsNoKeyword, AreConstantNames};
ghost use Rattle.cmd_build.specs.guess.ReadableNames.{AreConstructorNames};
ghost use Rattle.cmd_build.specs.guess.ReadableNames.{IsEncoded, AreEncoded, has_name};

use base_data::model::list::List;
use types_lex::character_classes::{is_name_byte, starts_lower};
use types_spec::types::names::{ConstrNames, Names};
use types_spec::types::shape::ShapeOf;
use types_table::type_table::TypeTable;

/// Returns true if a word is not a keyword.
fn is_no_keyword(name: &[u8]) -> bool
    ensures { IsTrue result → IsNoKeyword name.now }
{
    name != b"type".as_slice()
        && name != b"and".as_slice()
        && name != b"of".as_slice()
        && name != b"mutable".as_slice()
}

/// Returns true if a name may continue with these bytes.
fn are_name_bytes(name: &[u8]) -> bool
    ensures { result ≡ list_all is_name_byte name.now }
{
    name.iter().all(|b| is_name_byte(*b))
}

/// Returns true if `name` is a lower-case name.
fn is_lower(name: &[u8]) -> bool
    ensures { IsTrue result → IsForm (Lower name.now) }
{
    if name.is_empty() {
        return false;
    }
    let starts = starts_lower(name[0]);
    if starts {
        if are_name_bytes(name) {
            return is_no_keyword(name);
        }
    }
    false
}

/// Returns true if `name` is an upper-case name.
fn is_upper(name: &[u8]) -> bool
    ensures { IsTrue result → IsForm (Upper name.now) }
{
    if name.is_empty() {
        return false;
    }
    let starts = name[0].is_ascii_uppercase();
    if starts {
        return are_name_bytes(name);
    }
    false
}

/// Returns true if `name` is the name `::` of non-empty lists.
fn is_cons(name: &[u8]) -> bool
    ensures { result ≡ bytes_eq name.now (codes "::") }
{
    name == b"::".as_slice()
}

/// Returns true if `name` is the name `[]` of the empty list.
fn is_empty_list(name: &[u8]) -> bool
    ensures { result ≡ bytes_eq name.now (codes "[]") }
{
    name == b"[]".as_slice()
}

/// Returns true if `name` is the name of a constructor other than `ref`.
fn is_head(name: &[u8]) -> bool
    ensures { IsTrue result → IsHead name.now }
{
    if is_upper(name) {
        return true;
    }
    if is_cons(name) {
        return true;
    }
    is_empty_list(name)
}

/// Returns true if all names in `fields` are lower-case names.
fn are_fields(fields: &[List<u8>]) -> bool
    ensures { IsTrue result → AreFieldNames fields.now }
{
    fields.iter().all(|field| is_lower(field.as_slice()))
}

/// Returns the index of the first occurrence of a name.
fn index(all: &[List<u8>], name: &[u8]) -> Option<usize>
    ensures { result ≡ position (bytes_eq name.now) all.now }
{
    all.iter().position(|other| name == other.as_slice())
}

/// Returns true if the constructor has this name.
fn has_name(constr: &ConstrNames, name: &[u8]) -> bool
    ensures { result ≡ has_name name.now constr.now }
{
    constr.name.as_slice() == name
}

/// Returns the index of the first constructor with this name.
fn constructor_index(all: &[ConstrNames], name: &[u8]) -> Option<usize>
    ensures { result ≡ position (has_name name.now) all.now }
{
    all.iter().position(|constr| has_name(constr, name))
}

/// Returns true if the index is `i`.
fn is_index(found: Option<usize>, i: usize) -> bool
    ensures { IsTrue result → found ≡ Some i }
{
    match found {
        Some(j) => j == i,
        None => false,
    }
}

/// Returns true if constant `i` is readable.
fn is_constant(names: &Names, i: usize) -> bool
    requires { i < length names.now.constants }
    ensures { IsTrue result
        → (name : Seq ℕ) → slice_get names.now.constants i ≡ Some name
        → IsConstantName names.now i name }
{
    let name = names.constants.as_slice()[i].as_slice();
    is_head(name) && is_index(index(names.constants.as_slice(), name), i)
}

/// Returns true if `constr`, the constructor with the tag `tag`, is readable.
fn is_this_constructor(names: &Names, constr: &ConstrNames, tag: usize) -> bool
    ensures { IsTrue result → slice_get names.now.constructors tag ≡ Some constr.now
        → IsConstructorName names.now tag constr.now }
{
    if is_head(constr.name.as_slice()) {
        if are_fields(constr.fields.as_slice()) {
            let found = constructor_index(names.constructors.as_slice(), constr.name.as_slice());
            return is_index(found, tag);
        }
    }
    false
}

/// Returns true if the constructor with the tag `tag` is readable.
fn is_constructor(names: &Names, tag: usize) -> bool
    ensures { IsTrue result
        → (constr : ConstrNames) → slice_get names.now.constructors tag ≡ Some constr
        → IsConstructorName names.now tag constr }
{
    match names.constructors.as_slice().get(tag) {
        Some(constr) => is_this_constructor(names, constr, tag),
        None => true,
    }
}

/// Returns true if all constants are readable.
fn are_constants(names: &Names) -> bool
    ensures { IsTrue result → AreConstantNames names.now }
{
    for i in 0..names.constants.as_slice().len() {
        if !is_constant(names, i) {
            return false;
        }
    }
    true
}

/// Returns true if all constructors with arguments are readable.
fn are_constructors(names: &Names) -> bool
    ensures { IsTrue result → AreConstructorNames names.now }
{
    for tag in 0..names.constructors.as_slice().len() {
        if !is_constructor(names, tag) {
            return false;
        }
    }
    true
}

/// Returns true if the names of a type with the representation `shape` are readable.
#[tactic(auto, using(crate::proofs::guess::GuessEncodedLemmas::sum_names))]
fn is_encoded_at(shape: &ShapeOf<usize>, names: &Names) -> bool
    ensures { IsTrue result → IsEncoded shape.now names.now }
{
    match shape {
        ShapeOf::Below(many) => *many == 1 || *many == 2 || *many == 256,
        ShapeOf::Sum(_, _) => are_constants(names) && are_constructors(names),
        ShapeOf::Product(_, types) => {
            are_fields(names.fields.as_slice())
                && (!names.fields.as_slice().is_empty() || types.as_slice().len() >= 2)
        }
        ShapeOf::FlatFloats(_, _) => are_fields(names.fields.as_slice()),
        ShapeOf::Poly(_) => names.tags.as_slice().is_empty(),
        ShapeOf::Anything => false,
        ShapeOf::ArrayOfAnything(_) => false,
        _ => true,
    }
}

/// Returns true if the names of all types of a table are readable and no type has tags.
pub fn is_encoded(table: &TypeTable) -> bool
    ensures { IsTrue result → AreEncoded table.now }
{
    for i in 0..table.count() {
        if !is_encoded_at(table.shape(i), table.names(i)) {
            return false;
        }
    }
    true
}
