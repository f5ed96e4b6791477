//! An item of a bracket, with the tags that the item contributes.

use base_data::model::list::List;
use types_spec::types::head::TagOf;

/// An item of a bracket: the index of the item's first lexeme, and the item's tags. The arguments
/// of the tags are type numbers.
#[derive(Drop)]
pub struct TagItem {
    pub position: usize,
    pub tags: List<TagOf<usize>>,
}
