//! Inspects members of a class and computes their signatures.

ghost use Rattle.std.specs.Prelude.{ℕ, ◌≡◌, ◌<◌, ◌⊎◌, List, length, slice_index, IfOk, OnOk};
ghost use Rattle.std.specs.Prelude.{Contains};
ghost use Rattle.types_table.specs.store.Held.{AreDistinct, Grows};
ghost use Rattle.types_table.specs.partition.Refinement.{IsInspection, SignatureAt, IsSignatureOf};

use crate::partition::head_form::HeadForm;
use crate::partition::lists::of_class;
use crate::partition::moves::positions_of;
use crate::partition::signatures::Signatures;
use base_data::model::Memory;
use std::alloc::Global;

/// The result of inspecting a class: the inspected members, the signatures found, the index of each
/// member's signature, and the index of the signature that keeps the class number.
#[derive(Drop)]
pub struct Inspection {
    pub inspected: Vec<usize>,
    pub found: Signatures,
    pub positions: Vec<usize>,
    pub kept: usize,
}

/// Inspects only the pending members of a class. The signature of the class keeps the class number,
/// and members that are not pending have the signature of the class.
pub fn inspect_at_few(
    alloc: Global,
    forms: &[HeadForm],
    class: &[usize],
    signatures: &[Vec<usize>],
    waiting: &[usize],
    wanted: usize,
) -> Result<Inspection, Memory>
    requires many { length class.now ≡ length forms.now }
    requires wanted { wanted < length signatures.now }
    requires settled { (i : ℕ) → i < length class.now → slice_index class.now i ≡ wanted
        → Contains waiting.now i
        ⊎ ((s : List ℕ) × SignatureAt signatures.now wanted s
        × IsSignatureOf forms.now (slice_index class.now) i s) }
    ensures { IfOk result (IsInspection forms.now class.now wanted) }
{
    let inspected = of_class(alloc, waiting, class, wanted)?;
    let mut found = Signatures::new(alloc);
    let signature = Vec::from_slice(alloc, signatures[wanted].as_slice())?;
    let kept = found.position(signature)?;
    let positions = positions_of(alloc, forms, class, inspected.as_slice(), &mut found)?;
    Ok(Inspection {
        inspected,
        found,
        positions,
        kept,
    })
}

/// Inspects all members of a class. The most frequent signature keeps the class number.
pub fn inspect_at_all(
    alloc: Global,
    forms: &[HeadForm],
    class: &[usize],
    signatures: &[Vec<usize>],
    members: &[usize],
    wanted: usize,
) -> Result<Inspection, Memory>
    requires many { length class.now ≡ length forms.now }
    requires wanted { wanted < length signatures.now }
    requires members { (i : ℕ) → i < length class.now → slice_index class.now i ≡ wanted
        → Contains members.now i }
    ensures { IfOk result (IsInspection forms.now class.now wanted) }
{
    let inspected = of_class(alloc, members, class, wanted)?;
    let mut found = Signatures::new(alloc);
    let positions = positions_of(alloc, forms, class, inspected.as_slice(), &mut found)?;
    let kept = kept_position(alloc, signatures, wanted, positions.as_slice(), &mut found)?;
    Ok(Inspection {
        inspected,
        found,
        positions,
        kept,
    })
}

/// Returns the most frequent index of a signature. If the set of signatures is empty, adds a
/// signature.
fn kept_position(
    alloc: Global,
    signatures: &[Vec<usize>],
    wanted: usize,
    positions: &[usize],
    found: &mut Signatures,
) -> Result<usize, Memory>
    requires wanted { wanted < length signatures.now }
    requires distinct { AreDistinct found.old }
    ensures grown { OnOk result (Grows found.old found.new) }
    ensures distinct { OnOk result (AreDistinct found.new) }
    ensures within { IfOk result (λ position. position < length found.new) }
{
    let position = commonest(alloc, positions, found.len())?;
    if position < found.len() {
        return Ok(position);
    }
    let signature = Vec::from_slice(alloc, signatures[wanted].as_slice())?;
    let added = found.position(signature)?;
    Ok(added)
}

/// Returns the index below `many` that occurs most often in `positions`.
fn commonest(alloc: Global, positions: &[usize], many: usize) -> Result<usize, Memory> {
    let mut counts = Vec::new(alloc);
    for _position in 0..many {
        counts.push(0usize)?;
    }
    for position in positions {
        add_one(counts.as_mut_slice(), *position);
    }
    Ok(largest(counts.as_slice()))
}

/// Increments the count at index `at`.
fn add_one(counts: &mut [usize], at: usize) {
    if at < counts.len() {
        counts[at] = counts[at].saturating_add(1);
    }
}

/// Returns the index of the largest count.
fn largest(counts: &[usize]) -> usize {
    let mut best = 0;
    let mut most = 0;
    for (at, count) in counts.iter().enumerate() {
        if *count > most {
            best = at;
            most = *count;
        }
    }
    best
}
