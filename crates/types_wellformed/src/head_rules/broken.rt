//! The violations of scope rules that depend on the heads of types.

use base_data::model::list::List;

/// A violation of a rule that depends on heads, with the lexeme of the violation.
#[derive(Drop)]
pub enum HeadBreak {
    /// A bracket includes a type that is not a polymorphic variant.
    NotVariant(usize),
    /// Two items of a bracket have one tag with different arguments.
    TagClash(usize),
    /// Two tags have the same hash: the lexeme of the violation, and the names of the two tags.
    HashClash(usize, List<u8>, List<u8>),
    /// A record is flat through an abbreviation of its own group.
    FloatInGroup(usize),
    /// A record has fields of type `float` and of type `_`, and no other fields.
    MixedRecord(usize),
}
