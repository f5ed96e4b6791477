//! Pairs in the order of a certificate entry.

ghost use Rattle.std.specs.Prelude.{ℕ, ◌≡◌, ◌<◌, ◌↔◌, length, map, Contains, IfOk};
ghost use Rattle.cert_format.specs.Increasing.{AreIncreasing};
ghost use Rattle.cert_produce.specs.LeastFaults.{at_least};

use base_data::model::Memory;
use cert_format::CertificatePairs;
use check_heap::check::Typing;
use std::alloc::Global;

/// Returns the pairs of a typing in the order of a certificate entry, without duplicates. Each pair
/// has the least number of its type.
pub fn normal_pairs(
    alloc: Global,
    typing: &Typing,
    least_faults: &[usize],
) -> Result<CertificatePairs, Memory>
    requires { (o t : ℕ) → Contains typing.now (o, t) → t < length least_faults.now }
    ensures same { IfOk result (λ pairs. (pair : ℕ × ℕ)
        → Contains pairs pair ↔ Contains (map (at_least least_faults.now) typing.now) pair) }
    ensures increasing { IfOk result AreIncreasing }
{
    let pairs = at_least_faults(alloc, typing, least_faults)?;
    Ok(in_order(alloc, pairs))
}

/// Returns the pairs in their original order, each with the least number of its type.
fn at_least_faults(
    alloc: Global,
    typing: &Typing,
    least_faults: &[usize],
) -> Result<Vec<(u64, u64)>, Memory>
    requires { (o t : ℕ) → Contains typing.now (o, t) → t < length least_faults.now }
    ensures { IfOk result (λ pairs. pairs.items ≡ map (at_least least_faults.now) typing.now) }
{
    let mut pairs = Vec::with_capacity(alloc, typing.len())?;
    for k in 0..typing.len() {
        let (object, ty) = typing.get(k);
        pairs.push((object, least_faults[ty] as u64))?;
    }
    Ok(pairs)
}

/// Returns the pairs in ascending order, without duplicates. The function sorts the pairs in place
/// and allocates nothing.
fn in_order(alloc: Global, mut pairs: Vec<(u64, u64)>) -> CertificatePairs
    ensures same { (pair : ℕ × ℕ) → Contains result pair ↔ Contains pairs.items pair }
    ensures increasing { AreIncreasing result }
{
    pairs.sort_unstable();
    pairs.dedup();
    CertificatePairs::of(alloc, pairs)
}
