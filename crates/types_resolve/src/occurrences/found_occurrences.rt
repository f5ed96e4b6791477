//! The occurrences found in declarations and types.

ghost use Rattle.std.specs.Prelude.{◌≡◌, ◌++◌, ◌∷◌, [], All, OnOk};
ghost use Rattle.types_resolve.specs.occurrences.CountedFile.{carrying_in};
ghost use Rattle.types_spec.specs.types.TypeNodes.{types_of, AreOrdered};
ghost use Rattle.types_resolve.specs.scope.TypeBrackets.{brackets_known, all_known, IsOrdered};

use crate::occurrences::mark::{none, position_at, write_row};
use crate::scope::{BracketItem, LocatedName, Site, TypeBrackets};
use base_data::model::Memory;
use base_data::model::list::List;
use std::alloc::Global;
use types_spec::types::decl::Arguments;
use types_spec::types::ty::TypeTreeNode;

/// The occurrences found so far in a declaration or type.
#[derive(Drop)]
pub struct FoundOccurrences<'a> {
    /// The data for the rules on names.
    pub site: Site,
    /// The brackets found so far, one entry for each type.
    pub brackets: List<TypeBrackets<'a>>,
}

/// Returns the result without any occurrence.
pub fn nothing<'a>(alloc: Global) -> FoundOccurrences<'a>
    ensures { result
        ≡ record {
          site = record { rows = []; carrying = []; uses = []; variables = [] };
          brackets = [];
        } }
{
    FoundOccurrences {
        site: none(alloc),
        brackets: List::new(alloc),
    }
}

/// Appends a row of names that must be distinct.
pub fn write_names<'a>(
    found: &mut FoundOccurrences<'a>,
    row: List<LocatedName>,
) -> Result<(), Memory>
    ensures { OnOk result
        (found.new
        ≡ record found.old
        { site = record found.old.site { rows = found.old.site.rows ++ row ∷ [] } }) }
{
    write_row(&mut found.site, row)
}

/// Appends the lexeme of a constructor, if the constructor has arguments.
pub fn write_carrying<'a>(
    found: &mut FoundOccurrences<'a>,
    marks: &[usize],
    arguments: &Arguments,
) -> Result<(), Memory>
    ensures { OnOk result
        (found.new
        ≡ record found.old {
          site = record found.old.site
              { carrying = found.old.site.carrying ++ carrying_in marks.now arguments.now };
        }) }
{
    match arguments {
        Arguments::Constant => Ok(()),
        Arguments::Listed(_) | Arguments::Inline(_) => {
            found.site.carrying.push(position_at(marks, 0))
        }
    }
}

/// Appends the brackets of a type, if the type has brackets.
pub fn write_brackets<'a>(
    found: &mut FoundOccurrences<'a>,
    nodes: &'a [TypeTreeNode],
    brackets: List<List<BracketItem>>,
) -> Result<(), Memory>
    requires { AreOrdered nodes.now }
    ensures site { OnOk result (found.new.site ≡ found.old.site) }
    ensures ordered { OnOk result
        (All IsOrdered found.old.brackets → All IsOrdered found.new.brackets) }
    ensures brackets { OnOk result
        (all_known found.new.brackets
        ≡ all_known found.old.brackets ++ brackets_known (types_of nodes.now) brackets) }
{
    if brackets.len() == 0 {
        return Ok(());
    }
    found.brackets.push(TypeBrackets { nodes, brackets })
}
