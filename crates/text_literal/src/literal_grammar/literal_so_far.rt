//! A literal that is being read.

use crate::literal_grammar::literal_nodes::LiteralNodes;
use crate::literal_grammar::pending_node::{Opens, Stage};
use base_data::model::Memory;

/// The nodes of a literal that were read so far, and the open brackets.
#[derive(Drop)]
pub struct LiteralSoFar {
    pub nodes: LiteralNodes,
    pub opens: Opens,
}

/// The stage after a lexeme, or `None` if no literal continues with the lexeme.
pub type NextStage = Result<Option<Stage>, Memory>;
