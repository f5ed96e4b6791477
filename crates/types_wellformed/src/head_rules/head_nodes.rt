//! A borrowed list of the nodes of a type.

ghost use Rattle.types_spec.specs.types.TypeNodes.{AreOrdered};
ghost use Rattle.types_wellformed.specs.head_rules.Ordered.{AreOrdered-prop};

use types_spec::types::ty::TypeTreeNode;

/// The nodes of a type. Each node refers to earlier nodes only.
#[derive(Clone, Copy)]
pub struct HeadNodes<'a> {
    pub all: &'a [TypeTreeNode],
    pub ghost ordered: { AreOrdered all.now } by { AreOrdered-prop all.now },
}
