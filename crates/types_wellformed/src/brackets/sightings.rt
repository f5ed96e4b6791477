//! A table that stores, for each key, the first value seen and one value that differs from the
//! first value.

ghost use Rattle.std.specs.Prelude.{◌≡◌, None, Some, OnOk, if◌then◌else◌};
ghost use Rattle.std.specs.BTreeMap.{get_by};
ghost use Rattle.std.specs.Ordering.{is_eq};
ghost use Rattle.types_wellformed.specs.brackets.Sightings.{with_value, other_value};

use base_data::model::Memory;
use std::alloc::Global;
use std::collections::BTreeMap;

/// The values seen under a key: the first value, and one value that differs from the first value.
/// If no value differs, `other` is `None`.
#[derive(Clone, Copy)]
pub struct Sighting<V> {
    pub first: V,
    pub other: Option<V>,
}

/// A table of the values seen under each key.
#[derive(Drop)]
pub struct Sightings<K: Ord, V> {
    pub entries: BTreeMap<K, Sighting<V>>,
}

/// Returns the entry of a key after one more value is seen under the key.
fn with_value<V: Eq + Copy>(known: Option<Sighting<V>>, value: V) -> Sighting<V>
    ensures { result ≡ with_value V.eq known value }
{
    match known {
        None => Sighting {
            first: value,
            other: None,
        },
        Some(sighting) => {
            if sighting.other.is_some() || sighting.first == value {
                sighting
            } else {
                Sighting {
                    first: sighting.first,
                    other: Some(value),
                }
            }
        }
    }
}

/// Returns a value seen under the key that differs from `value`, or `None` if no seen value
/// differs.
fn other_value<V: Eq + Copy>(known: Option<Sighting<V>>, value: V) -> Option<V>
    ensures { result ≡ other_value V.eq known value }
{
    match known {
        None => None,
        Some(sighting) => {
            if sighting.first == value {
                sighting.other
            } else {
                Some(sighting.first)
            }
        }
    }
}

/// Returns the table in which no value is seen under any key.
pub fn empty<K: Ord, V: Eq + Copy>(alloc: Global) -> Sightings<K, V>
    ensures { (q : K) → get_by (K.cmp q) result.entries ≡ None }
{
    Sightings {
        entries: BTreeMap::new(alloc),
    }
}

/// Adds a value under a key.
pub fn add<K: Ord + Copy, V: Eq + Copy>(
    table: &mut Sightings<K, V>,
    key: K,
    value: V,
) -> Result<(), Memory>
    ensures { OnOk result
        ((q : K)
        → get_by (K.cmp q) table.new.entries
        ≡ (if is_eq (K.cmp key q)
        then Some (with_value V.eq (get_by (K.cmp key) table.old.entries) value)
        else get_by (K.cmp q) table.old.entries)) }
{
    let known = table.entries.get(&key).copied();
    table.entries.insert(key, with_value(known, value))?;
    Ok(())
}

/// Returns a value seen under `key` that differs from `value`, or `None` if no seen value differs.
pub fn other<K: Ord + Copy, V: Eq + Copy>(table: &Sightings<K, V>, key: K, value: V) -> Option<V>
    ensures { result ≡ other_value V.eq (get_by (K.cmp key) table.now.entries) value }
{
    other_value(table.entries.get(&key).copied(), value)
}
