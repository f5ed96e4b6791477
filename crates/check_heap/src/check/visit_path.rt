//! The path to a visit, found from the visit back to the root.

ghost use Rattle.std.specs.Prelude.{◌≡◌, ◌<◌, ◌∷◌, ◌++◌, [], length, reverse, IfOk, OnOk};
ghost use Rattle.check_heap.specs.check.KnownVisits.{AreOrdered, IsPathOf};
ghost use Rattle.check_heap.specs.check.Visits.{listed};

use crate::check::visits::Visits;
use base_data::model::Memory;
use base_data::model::path::Path;
use std::alloc::Global;

/// Returns the path to visit `k`. Finds the steps of the path from the last one back. Fails with
/// `Memory` if memory runs out.
pub fn path_of(alloc: Global, visits: &Visits, k: usize) -> Result<Path, Memory>
    requires in_range { k < length (listed visits.now) }
    requires ordered { AreOrdered (listed visits.now) }
    ensures { IfOk result (λ path. IsPathOf (listed visits.now) k path) }
{
    let mut steps = Vec::new(alloc);
    let mut at = k;
    while at > 0 {
        let visit = visits.get(at);
        write_step(&mut steps, visit.step)?;
        at = visit.parent;
    }
    reversed(alloc, steps)
}

/// Appends a step to a list of steps.
fn write_step(steps: &mut Vec<u64>, step: u64) -> Result<(), Memory>
    ensures { OnOk result (steps.new.items ≡ steps.old.items ++ step ∷ []) }
{
    Ok(steps.push(step)?)
}

/// Returns the path that consists of the steps in reverse order.
fn reversed(alloc: Global, mut steps: Vec<u64>) -> Result<Path, Memory>
    ensures { IfOk result (λ path. path ≡ reverse steps.items) }
{
    let mut path = Path::new(alloc);
    while let Some(step) = steps.pop() {
        path.push(step)?;
    }
    Ok(path)
}
