//! The grammar of literals, the textual form of values, and a parser that reads a literal one
//! lexeme at a time. A parsed literal is a list of nodes in preorder. `read_literal_tree` reads a
//! list of lexemes, and `read_placed_tree` reads a text. The two contracts state that the nodes are
//! those of the unique literal, or that the error is the first one. The parser does not check the
//! literal's type.

mod laws;
mod literal_node;
mod literal_nodes;
mod literal_so_far;
mod parser_step;
mod pending_node;
mod placed_nodes;
mod tree_parser;

pub use laws::{firsts_in_range, literal_or_syntax, one_literal, worked_literals};
pub use literal_node::{LiteralNode, NodeForm};
pub use literal_nodes::LiteralNodes;
pub use placed_nodes::{PlacedFault, PlacedNodes, read_placed_tree};
pub use tree_parser::read_literal_tree;
