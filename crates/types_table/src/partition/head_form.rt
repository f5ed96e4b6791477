//! Heads whose names are replaced by numbers.

ghost use Rattle.std.specs.Prelude.{◌≡◌, [], IfOk, OnOk};
ghost use Rattle.types_table.specs.store.Held.{AreDistinct, Grows};
ghost use Rattle.types_table.specs.partition.Form.{IsForm, AreForms, AreTagForms, code_of, row_of};

use crate::store::NameSet;
use base_data::model::Memory;
use base_data::model::list::List;
use std::alloc::Global;
use types_spec::types::decl::Predeclared;
use types_spec::types::head::{HeadOf, TagOf};

/// A tag whose name is a number.
#[derive(Clone, Copy)]
pub struct TagForm {
    pub name: usize,
    pub argument: Option<usize>,
}

/// A head whose names are numbers: a label for its kind and name, its parts, and its tags.
#[derive(Drop)]
pub struct HeadForm {
    pub label: List<usize>,
    pub parts: List<usize>,
    pub tags: List<TagForm>,
}

/// Returns the forms of heads.
pub fn forms_of(alloc: Global, all: &[HeadOf<usize>]) -> Result<List<HeadForm>, Memory>
    ensures { IfOk result (AreForms all.now) }
{
    let mut names = NameSet::new(alloc);
    let mut forms = List::new(alloc);
    for head in all {
        let form = form_of(alloc, &mut names, head)?;
        forms.push(form)?;
    }
    Ok(forms)
}

/// Returns the form of a head, and adds the names in the head to `names`.
fn form_of(alloc: Global, names: &mut NameSet, head: &HeadOf<usize>) -> Result<HeadForm, Memory>
    requires { AreDistinct names.old }
    ensures form { IfOk result (IsForm names.new head.now) }
    ensures grown { OnOk result (Grows names.old names.new) }
    ensures distinct { OnOk result (AreDistinct names.new) }
{
    match head {
        HeadOf::Variable(name) => {
            let number = names.number(name.as_slice())?;
            formed(alloc, &[0, number], &[], Vec::new(alloc))
        }
        HeadOf::Predeclared(base, parts) => formed(
            alloc,
            &[1, code_of(*base), row_of(*base)],
            parts.as_slice(),
            Vec::new(alloc),
        ),
        HeadOf::Datatype(name, parts) => {
            let number = names.number(name.as_slice())?;
            formed(alloc, &[2, number], parts.as_slice(), Vec::new(alloc))
        }
        HeadOf::Tuple(parts) => formed(alloc, &[3], parts.as_slice(), Vec::new(alloc)),
        HeadOf::Variants(tags) => {
            let forms = tag_forms(alloc, names, tags.as_slice())?;
            formed(alloc, &[4], &[], forms)
        }
        HeadOf::Absent => formed(alloc, &[5], &[], Vec::new(alloc)),
    }
}

/// Builds a form from a label, parts and tags.
fn formed(
    alloc: Global,
    label: &[usize],
    parts: &[usize],
    tags: Vec<TagForm>,
) -> Result<HeadForm, Memory>
    ensures label { IfOk result (λ f. f.label ≡ label.now) }
    ensures parts { IfOk result (λ f. f.parts ≡ parts.now) }
    ensures tags { IfOk result (λ f. f.tags ≡ tags.items) }
{
    let label = Vec::from_slice(alloc, label)?;
    let parts = Vec::from_slice(alloc, parts)?;
    Ok(HeadForm {
        label: List::of(label),
        parts: List::of(parts),
        tags: List::of(tags),
    })
}

/// Returns the forms of tags, and adds the names of the tags to `names`.
fn tag_forms(
    alloc: Global,
    names: &mut NameSet,
    tags: &[TagOf<usize>],
) -> Result<Vec<TagForm>, Memory>
    requires { AreDistinct names.old }
    ensures forms { IfOk result (λ forms. AreTagForms names.new tags.now forms.items) }
    ensures grown { OnOk result (Grows names.old names.new) }
    ensures distinct { OnOk result (AreDistinct names.new) }
{
    let mut forms = Vec::new(alloc);
    for tag in tags {
        let name = names.number(tag.name.as_slice())?;
        let argument = tag.argument;
        forms.push(TagForm { name, argument })?;
    }
    Ok(forms)
}

/// Returns the number of the kind of a predeclared type. Each type with a representation of its own
/// has a number of its own. All variants have one number.
fn code_of(base: Predeclared) -> usize
    ensures { result ≡ code_of base }
{
    match base {
        Predeclared::Int => 0,
        Predeclared::Char => 1,
        Predeclared::Bool => 2,
        Predeclared::Unit => 3,
        Predeclared::String => 4,
        Predeclared::Bytes => 5,
        Predeclared::Float => 6,
        Predeclared::Int32 => 7,
        Predeclared::Int64 => 8,
        Predeclared::Nativeint => 9,
        Predeclared::Floatarray => 10,
        Predeclared::Array => 11,
        Predeclared::Any => 12,
        Predeclared::Sum(_) => 13,
    }
}

/// Returns the row of a predeclared variant, or 0 for a predeclared type that is no variant.
fn row_of(base: Predeclared) -> usize
    ensures { result ≡ row_of base }
{
    match base {
        Predeclared::Sum(row) => row,
        _ => 0,
    }
}
