//! Finds brackets that include a type that is not a polymorphic variant.

ghost use Rattle.std.specs.Prelude.{◌<◌, ◌↔◌, length, IfOk, IsTrue};
ghost use Rattle.types_spec.specs.types.TypeNodes.{type_at};
ghost use Rattle.types_resolve.specs.scope.Least.{IsLeast};
ghost use Rattle.types_table.specs.store.Held.{Grows};
ghost use Rattle.types_wellformed.specs.head_rules.Rules.{AreWithin, AreAllWithin, IncludesOther};
ghost use Rattle.types_wellformed.specs.head_rules.Rules.{ItemsInclude};
ghost use Rattle.types_wellformed.specs.head_rules.Rules.{SomeBreaks};

use crate::head_rules::item::NumberedItem;
use base_data::model::Memory;
use base_data::model::list::List;
use std::alloc::Global;
use types_build::representation::is_polymorphic_variant;
use types_resolve::scope::{SoundEnvironment, earliest, position_if};
use types_table::store::{TypeNode, TypeStore};

/// Returns true if an item includes a type that is not a polymorphic variant.
fn includes_other(
    alloc: Global,
    types: &mut TypeStore,
    decls: &SoundEnvironment<'_>,
    number: usize,
) -> Result<bool, Memory>
    requires number { number < length types.old }
    ensures ok { IfOk result
        (λ is. IsTrue is ↔ IncludesOther decls.now (type_at types.old number)) }
    ensures grown { Grows types.old types.new }
{
    match types.node(number) {
        TypeNode::Including(_, included) => {
            let is = is_polymorphic_variant(alloc, types, decls, included)?;
            Ok(!is)
        }
        _ => Ok(false),
    }
}

/// Returns the least lexeme of an item of a bracket that includes a type other than a polymorphic
/// variant. Returns `None` if the bracket includes only polymorphic variants.
fn least_other(
    alloc: Global,
    types: &mut TypeStore,
    decls: &SoundEnvironment<'_>,
    items: &[NumberedItem],
) -> Result<Option<usize>, Memory>
    requires within { AreWithin types.old items.now }
    ensures ok { IfOk result (IsLeast (ItemsInclude decls.now types.old items.now)) }
    ensures grown { Grows types.old types.new }
{
    let mut best = None;
    for item in items {
        let other = includes_other(alloc, types, decls, item.number)?;
        best = earliest(best, position_if(other, item.position));
    }
    Ok(best)
}

/// Returns the least lexeme of an item of any bracket that includes a type other than a polymorphic
/// variant. Returns `None` if all brackets include only polymorphic variants.
pub fn least_not_variant(
    alloc: Global,
    types: &mut TypeStore,
    decls: &SoundEnvironment<'_>,
    brackets: &[List<NumberedItem>],
) -> Result<Option<usize>, Memory>
    requires within { AreAllWithin types.old brackets.now }
    ensures ok { IfOk result
        (IsLeast (SomeBreaks brackets.now (ItemsInclude decls.now types.old))) }
    ensures grown { Grows types.old types.new }
{
    let mut best = None;
    for items in brackets {
        let found = least_other(alloc, types, decls, items.as_slice())?;
        best = earliest(best, found);
    }
    Ok(best)
}
