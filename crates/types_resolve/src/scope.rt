//! Checks the scope rules on names in a text of declarations, or in the text of a type. The
//! functions `first_break` and `first_break_in_type` return the first broken rule and the least
//! lexeme that breaks the rule. An environment finds the declaration of a name.

mod abbreviation_steps;
mod cycle_search;
mod cyclic;
mod declared_names;
mod environment;
mod first_name_rule;
mod graph;
mod least;
mod name_table;
mod name_uses;
mod ranks;
mod rule;
mod seconds;
mod site;
mod sites;
mod sound_environment;
mod type_brackets;
mod variables;

pub use environment::Environment;
pub use first_name_rule::{Broken, first_break, first_break_in_type};
pub use least::{earliest, position_if};
pub use rule::NameRule;
pub use site::{LocatedName, Site, TypeSite, TypeUse};
pub use sites::{least_break, least_break_in_type};
pub use sound_environment::SoundEnvironment;
pub use type_brackets::{BracketItem, TypeBrackets};
