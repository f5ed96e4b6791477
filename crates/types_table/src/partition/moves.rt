//! Splits a class: names the signatures and moves the members.

ghost use Rattle.std.specs.Prelude.{ℕ, ◌≡◌, ◌≢◌, ◌<◌, ◌+◌, List, length, vec_len, slice_index};
ghost use Rattle.std.specs.Prelude.{IfOk, OnOk, All};
ghost use Rattle.std.specs.Global.{Vec as Items};
ghost use Rattle.types_table.specs.store.Held.{AreDistinct, Grows};
ghost use Rattle.types_table.specs.partition.Lists.{Has, Keeps};
ghost use Rattle.types_table.specs.partition.Refinement.{AreSigned, AreNamed, NamedSoFar, AreMoved};
ghost use Rattle.types_table.specs.partition.Refinement.{HasMembers};

use crate::partition::head_form::HeadForm;
use crate::partition::lists::write;
use crate::partition::signature::{class_at, signature_of};
use crate::partition::signatures::Signatures;
use base_data::model::Memory;
use std::alloc::Global;

/// Returns the index of the signature of each inspected number, and adds the signatures to `found`.
pub fn positions_of(
    alloc: Global,
    forms: &[HeadForm],
    class: &[usize],
    inspected: &[usize],
    found: &mut Signatures,
) -> Result<Vec<usize>, Memory>
    requires within { All (λ i. i < length forms.now) inspected.now }
    requires distinct { AreDistinct found.old }
    ensures signed { IfOk result
        (λ positions. AreSigned forms.now
        (slice_index class.now) found.new inspected.now positions.items) }
    ensures grown { OnOk result (Grows found.old found.new) }
    ensures distinct { OnOk result (AreDistinct found.new) }
{
    let mut positions = Vec::new(alloc);
    for number in inspected {
        let signature = signature_of(alloc, class, &forms[*number])?;
        let position = found.position(signature)?;
        positions.push(position)?;
    }
    Ok(positions)
}

/// Assigns a class to each signature in `found`.
pub fn name_positions(
    alloc: Global,
    found: &Signatures,
    parted: usize,
    kept: usize,
    signatures: &mut Vec<Vec<usize>>,
) -> Result<Vec<usize>, Memory>
    requires parted { parted < vec_len signatures.old }
    requires kept { kept < length found.now }
    ensures { IfOk result
        (λ numbers. AreNamed found.now parted kept numbers.items signatures.old.items
        signatures.new.items) }
{
    let mut numbers = Vec::new(alloc);
    for position in 0..found.len() {
        name_position(
            alloc,
            found,
            parted,
            kept,
            position,
            signatures,
            &mut numbers,
        )?;
    }
    let signature = Vec::from_slice(alloc, found.signature(kept))?;
    signatures[parted] = signature;
    Ok(numbers)
}

/// Assigns a class to the signature at the next index.
fn name_position(
    alloc: Global,
    found: &Signatures,
    parted: usize,
    kept: usize,
    position: usize,
    signatures: &mut Vec<Vec<usize>>,
    numbers: &mut Vec<usize>,
) -> Result<(), Memory>
    requires { position < length found.now }
    ensures { OnOk result
        ((first : List (Items ℕ))
        → NamedSoFar found.now parted kept position numbers.old.items first signatures.old.items
        → NamedSoFar found.now parted kept (position + 1) numbers.new.items first
        signatures.new.items) }
{
    if position == kept {
        numbers.push(parted)?;
        return Ok(());
    }
    numbers.push(signatures.len())?;
    signatures.push(Vec::from_slice(alloc, found.signature(position))?)?;
    Ok(())
}

/// Gives each inspected number the class of its signature.
pub fn move_all(class: &mut Vec<usize>, inspected: &[usize], positions: &[usize], numbers: &[usize])
    requires inspected { All (λ i. i < length class.old.items) inspected.now }
    requires positions { All (λ p. p < length numbers.now) positions.now }
    requires many { length positions.now ≡ length inspected.now }
    ensures moved { AreMoved inspected.now positions.now numbers.now
        (length inspected.now) class.old.items
        class.new.items }
    ensures long { length class.new.items ≡ length class.old.items }
{
    for at in 0..inspected.len() {
        class[inspected[at]] = numbers[positions[at]];
    }
}

/// Adds the numbers that left a class to the members of their new classes.
pub fn add_members(
    members: &mut Vec<Vec<usize>>,
    class: &[usize],
    inspected: &[usize],
    left: usize,
) -> Result<(), Memory>
    requires { (i : ℕ) → slice_index class.now i < vec_len members.old }
    ensures keeps { OnOk result (Keeps members.old.items members.new.items) }
    ensures has { OnOk result (HasMembers class.now left inspected.now members.new.items) }
{
    for number in inspected {
        add_member(members, class, *number, left)?;
    }
    Ok(())
}

/// If a number left the class, adds it to the members of its new class.
fn add_member(
    members: &mut Vec<Vec<usize>>,
    class: &[usize],
    number: usize,
    left: usize,
) -> Result<(), Memory>
    requires { (i : ℕ) → slice_index class.now i < vec_len members.old }
    ensures keeps { OnOk result (Keeps members.old.items members.new.items) }
    ensures has { OnOk result
        (slice_index class.now number ≢ left
        → Has members.new.items (slice_index class.now number) number) }
{
    let to = class_at(class, number);
    if to == left {
        return Ok(());
    }
    write(members, to, number)?;
    Ok(())
}
