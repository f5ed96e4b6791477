//! The signature of a head: its label and the classes of its parts.

ghost use Rattle.std.specs.Prelude.{◌≡◌, ◌++◌, map, slice_index, IfOk, OnOk};
ghost use Rattle.types_table.specs.partition.Signature.{IsSignature, AreCodes, IsCode};

use crate::partition::head_form::{HeadForm, TagForm};
use crate::partition::set::as_set;
use base_data::model::Memory;
use std::alloc::Global;

/// A number above every class that can be distinguished.
const WIDTH: usize = 4_294_967_296;

/// Returns the class of a number, or 0 if the number has no class.
pub fn class_at(class: &[usize], number: usize) -> usize
    ensures { result ≡ slice_index class.now number }
{
    match class.get(number) {
        Some(found) => *found,
        None => 0,
    }
}

/// Returns the signature of a head: its label, the classes of its parts, and the codes of its tags
/// as a set.
pub fn signature_of(alloc: Global, class: &[usize], form: &HeadForm) -> Result<Vec<usize>, Memory>
    ensures { IfOk result (λ s. IsSignature (slice_index class.now) form.now s.items) }
{
    let mut codes = codes_of(alloc, class, form.tags.as_slice())?;
    as_set(&mut codes);
    let mut signature = Vec::from_slice(alloc, form.label.as_slice())?;
    add_classes(class, form.parts.as_slice(), &mut signature)?;
    signature.extend_from_slice(&codes)?;
    Ok(signature)
}

/// Appends the class of each part.
fn add_classes(class: &[usize], parts: &[usize], signature: &mut Vec<usize>) -> Result<(), Memory>
    ensures { OnOk result
        (signature.new.items ≡ signature.old.items ++ map (slice_index class.now) parts.now) }
{
    for part in parts {
        signature.push(class_at(class, *part))?;
    }
    Ok(())
}

/// Returns the code of each tag.
fn codes_of(alloc: Global, class: &[usize], tags: &[TagForm]) -> Result<Vec<usize>, Memory>
    ensures { IfOk result (λ codes. AreCodes (slice_index class.now) tags.now codes.items) }
{
    let mut codes = Vec::new(alloc);
    for tag in tags {
        codes.push(code_of(class, *tag)?)?;
    }
    Ok(codes)
}

/// Returns a number that encodes the name of a tag and the class of its argument. Returns an error
/// if the class is not below `WIDTH`.
fn code_of(class: &[usize], tag: TagForm) -> Result<usize, Memory>
    ensures { IfOk result (IsCode (slice_index class.now) tag) }
{
    let offset = match tag.argument {
        Some(argument) => class_at(class, argument).saturating_add(1),
        None => 0,
    };
    if tag.name >= WIDTH || offset >= WIDTH {
        return Err(Memory);
    }
    Ok(tag.name * WIDTH + offset)
}
