//! For each type of a table, the least number of an equal type.

ghost use Rattle.std.specs.Prelude.{◌≡◌, ◌<◌, ◌+◌, length, IfOk, OnOk};
ghost use Rattle.types_table.specs.type_table.Made.{table_of};
ghost use Rattle.cert_produce.specs.LeastFaults.{AreLeastFaults, IsLeastOf, AreNoted, noted_in};

use base_data::model::Memory;
use std::alloc::Global;
use std::collections::BTreeMap;
use std::marker::Model;
use types_table::type_table::TypeTable;

/// For each type of a table, the least number of an equal type. In contracts, the model of a
/// `LeastFaults` is the list of these numbers.
#[derive(Drop)]
pub struct LeastFaults {
    least_faults: Vec<usize>,
}

impl Model for LeastFaults {
    ghost use Rattle.std.specs.Prelude.{List, ℕ};

    ghost Value = { List ℕ };

    ghost view = { λ l. l.least_faults.items };
}

impl LeastFaults {
    /// Returns, for each type of a table, the least number of an equal type.
    pub fn of(alloc: Global, table: &TypeTable) -> Result<LeastFaults, Memory>
        ensures { IfOk result (AreLeastFaults (table_of table.now)) }
    {
        let least_faults = least_faults_of(alloc, table)?;
        Ok(LeastFaults { least_faults })
    }

    /// Returns the numbers as a slice.
    pub fn as_slice(&self) -> &[usize]
        ensures { result.now ≡ self.now }
    {
        self.least_faults.as_slice()
    }
}

/// Returns, for each type of a table, the first type of its class of equal types.
fn least_faults_of(alloc: Global, table: &TypeTable) -> Result<Vec<usize>, Memory>
    ensures { IfOk result (λ least_faults. AreLeastFaults (table_of table.now) least_faults.items) }
{
    let mut firsts = BTreeMap::new(alloc);
    let mut least_faults = Vec::new(alloc);
    for ty in 0..table.count() {
        let least = first_of(&mut firsts, table, ty)?;
        least_faults.push(least)?;
    }
    Ok(least_faults)
}

/// Returns the first type of the class of `ty`. `firsts` maps each class of the types before `ty`
/// to the first type of the class. If `ty` is the first type of its class, the function adds `ty`
/// to `firsts`.
fn first_of(
    firsts: &mut BTreeMap<usize, usize>,
    table: &TypeTable,
    ty: usize,
) -> Result<usize, Memory>
    requires ty { ty < length table.now.classes }
    requires noted { AreNoted (table_of table.now) ty (noted_in firsts.old) }
    ensures noted { OnOk result (AreNoted (table_of table.now) (ty + 1) (noted_in firsts.new)) }
    ensures least { IfOk result (IsLeastOf (table_of table.now) ty) }
{
    let class = table.class(ty);
    if let Some(first) = firsts.get(&class) {
        return Ok(*first);
    }
    firsts.insert(class, ty)?;
    Ok(ty)
}
