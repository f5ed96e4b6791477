//! Checks the scope rules that depend on the heads of types. The rules concern the types that
//! brackets include, conflicts between tags of a bracket, flat records and mixed records.
//! `first_head_break` returns the first violation in the text of a file. `first_head_break_in_type`
//! returns the first violation in the text of a type. `types_resolve` checks the scope rules on
//! names.

mod apart;
mod bracket_numbers;
mod broken;
mod first_head_rule;
mod flat_records;
mod head_nodes;
mod item;
mod mixed;
mod tag_conflicts;
mod tags;
mod variant;

pub use broken::HeadBreak;
pub use first_head_rule::{first_head_break, first_head_break_in_type};
