//! Checks the scope rules on the tags of a bracket, given the tags that each item contributes.
//! `least_conflict` finds a tag with two different arguments, and `least_collision` finds two tags
//! with the same hash. Each function finds the least lexeme at which its rule is broken. The
//! contracts state the results also for the bracket as written. The module does not compute the
//! tags of included types.

mod arguments;
mod sightings;
mod tag_item;
mod tag_names;

pub use arguments::least_conflict;
pub use tag_item::TagItem;
pub use tag_names::{Collision, least_collision, nearer};
