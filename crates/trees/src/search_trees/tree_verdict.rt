//! The verdict on the sets and maps in a value.

use crate::search_trees::tree_node::TreeKind;
use base_data::model::path::Path;

/// The verdict on a value: no fault and the number of nodes, or the first fault with the path to
/// its node.
#[derive(Drop)]
pub enum TreeVerdict {
    Sound(u64),
    Faulty(TreeKind, Path),
}
