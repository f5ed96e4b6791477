//! Type expressions: a list of nodes, whose model in contracts is a tree.

ghost use Rattle.std.specs.Prelude.{◌≡◌};
ghost use Rattle.types_spec.specs.types.TypeNodes.{type_of, AreOrdered};

use base_data::model::list::List;
use std::marker::Model;

/// A node: a variable, a name, a tuple or a bracket of tags, or an earlier node extended by one
/// part. A node refers to an earlier node by the earlier node's index in the list.
#[derive(Drop)]
pub enum TypeTreeNode {
    /// A variable, without its quote.
    Variable(List<u8>),
    Named(List<u8>),
    Tuple,
    Bracket,
    /// An earlier node, extended by an argument or a component. The first index is the extended
    /// node, and the second index is the argument or component.
    Part(usize, usize),
    /// A bracket, extended by a tag without an argument. The tag has no backquote.
    Tag(usize, List<u8>),
    /// A bracket, extended by a tag with an argument.
    TagOf(usize, List<u8>, usize),
    /// A bracket, extended by an included type.
    Including(usize, usize),
}

/// A type expression with unexpanded abbreviations. Parentheses leave no node. In contracts, the
/// model of a `Ty` is the tree of the last node.
#[derive(Drop)]
pub struct Ty {
    nodes: Vec<TypeTreeNode>,
}

impl Model for Ty {
    ghost use Rattle.types_spec.specs.types.Ty.{Ty as Tree};
    ghost use Rattle.types_spec.specs.types.TyCode.{code};

    ghost Value = { Tree };

    ghost coded = { code };

    ghost use Rattle.types_spec.specs.types.TypeNodes.{type_of, AreOrdered};

    ghost view = { λ t. type_of t.nodes.items };

    ghost invariant = { λ t. AreOrdered t.nodes.items };
}

impl Ty {
    /// Returns the type that the last of `nodes` denotes.
    pub fn of(nodes: Vec<TypeTreeNode>) -> Ty
        requires { AreOrdered nodes.items }
        ensures { result ≡ type_of nodes.items }
    {
        Ty { nodes }
    }

    /// Returns the nodes of the type. Each node refers to earlier nodes only, and the tree of the
    /// last node is the type.
    pub fn nodes(&self) -> &[TypeTreeNode]
        ensures ordered { AreOrdered result.now }
        ensures last { type_of result.now ≡ self.now }
    {
        self.nodes.as_slice()
    }
}
