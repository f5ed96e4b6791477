//! Computes, for types over declarations, their heads, their shapes and the names of their
//! constructors, fields and tags. A store contains the types, and an index refers to each type. The
//! results equal the definitions `head`, `shape` and `names_of` over the declarations.

mod bracket;
mod calls;
mod datatype;
mod found_heads;
mod head_kind;
mod known_abbreviations;
mod plain_heads;
mod predeclared_shapes;
mod remembered_heads;
mod replaced;
mod representation;
mod representation_names;
mod settled_abbreviations;
mod spine;
mod stored;
mod sum;
mod trees;
mod type_heads;

pub use bracket::bracket_head;
pub use calls::{expand, flat_float, shape};
pub use found_heads::FoundHeads;
pub use head_kind::{
    expanded_base, is_float, is_float_base, is_polymorphic_variant, is_wildcard_base,
};
pub use known_abbreviations::{KnownAbbreviations, none_known};
pub use plain_heads::plain as plain_head;
pub use remembered_heads::{Heads, item_head, no_heads};
pub use replaced::{expanded, nearer, unfolded};
pub use representation::{Representation, representation_of, representation_with};
pub use representation_names::names_at;
pub use spine::{name, parts, root};
pub use stored::Stored;
pub use type_heads::head_of;
