//! A node of a search tree, and the faults that it can have.

ghost use Rattle.std.specs.Prelude.{◌≡◌, ◌+◌, ◌<◌, ◌↔◌, ◌⊎◌, ◌+ℤ◌, ◌<ℤ◌, length, map, pos, All};
ghost use Rattle.std.specs.Prelude.{IsTrue};
ghost use Rattle.base_data.specs.model.Graph.{IsValue, IsInteger};
ghost use Rattle.marshal_heap.specs.heap.Heap.{object_at, fields_of, field_at, word_of};
ghost use Rattle.marshal_heap.specs.heap.Heap.{IsFieldWord};
ghost use Rattle.trees.specs.search_trees.NodeParts as parts;
ghost use Rattle.trees.specs.search_trees.NodeParts.{node_of};
ghost use Rattle.trees.specs.search_trees.Valid.{IsValid};
ghost use Rattle.trees.specs.search_trees.TreeFault.{IsMiscounted, IsUnbalanced};

use base_data::model::value::Val;
use marshal_heap::heap::{Heap, Kind, NumberedObject, Rooted};

/// The parts of a node: two subtrees, the element between them, and the stored height.
#[derive(Clone, Copy)]
pub struct TreeNode {
    pub left: Val,
    pub element: Val,
    pub right: Val,
    pub height: i64,
}

/// The kind of a fault of a node.
#[derive(Clone, Copy)]
pub enum TreeKind {
    /// The stored height is not one more than the height of the higher subtree.
    Height,
    /// The heights of the subtrees differ by more than two.
    Balance,
    /// An element in the left subtree is not less than the node's element, or an element in the
    /// right subtree is not greater.
    Order,
}

/// Returns the node that is stored in an object.
#[inline(always)]
pub fn node_at(placed: &NumberedObject<'_>) -> TreeNode
    ensures node { result ≡ parts.node_at placed.now.heap.now placed.now.object }
    ensures valid { IsValid (length placed.now.heap.now) result }
{
    match placed.heap.kind(placed.object) {
        Kind::Block(_, 4) => with_right_at(placed, 2),
        Kind::Block(_, 5) => with_right_at(placed, 3),
        _ => TreeNode {
            left: Val::Int(0),
            element: Val::Int(0),
            right: Val::Int(0),
            height: 0,
        },
    }
}

/// Returns the node of a block. Field `right` has the right subtree, and the next field has the
/// height.
#[inline(always)]
fn with_right_at(block: &NumberedObject<'_>, right: u64) -> TreeNode
    requires position { (right ≡ 2) ⊎ (right ≡ 3) }
    requires last { right + 2
        ≡ length (fields_of (object_at block.now.heap.now block.now.object)) }
    ensures node { result ≡ node_of (fields_of (object_at block.now.heap.now block.now.object)) }
    ensures valid { IsValid (length block.now.heap.now) result }
{
    let words = block.heap.fields(block.object);
    TreeNode {
        left: value_at(block, words, 0),
        element: value_at(block, words, 1),
        right: value_at(block, words, right as usize),
        height: number_in(value_at(block, words, right as usize + 1)),
    }
}

/// Returns the element of the node that is stored in an object.
#[inline(always)]
pub fn element_at(placed: &NumberedObject<'_>) -> Val
    ensures element { result ≡ (parts.node_at placed.now.heap.now placed.now.object).element }
    ensures valid { IsValue (length placed.now.heap.now) result }
{
    node_at(placed).element
}

/// Returns field `i` of a block, given the 64-bit words of all fields.
#[inline(always)]
fn value_at(block: &NumberedObject<'_>, words: &[u64], i: usize) -> Val
    requires field { i < length (fields_of (object_at block.now.heap.now block.now.object)) }
    requires words { words.now ≡ map (word_of block.now.heap.now)
        (fields_of (object_at block.now.heap.now block.now.object)) }
    requires valid { All (IsFieldWord block.now.heap.now) words.now }
    ensures field { result ≡ field_at block.now.heap.now block.now.object i }
    ensures valid { IsValue (length block.now.heap.now) result }
{
    let _count = block.heap.count();
    block.heap.value_of(words[i])
}

/// Returns the integer of a value, or 0 if the value is not an integer.
pub fn number_in(v: Val) -> i64
    ensures { result ≡ parts.number_in v }
{
    match v {
        Val::Int(z) => z,
        _ => 0,
    }
}

/// Returns the height of a value.
#[inline(always)]
fn height_of(value: &Rooted<'_>) -> i64
    ensures height { result ≡ parts.height_of value.now.heap.now value.now.root }
    ensures small { IsInteger result }
{
    let heap = value.heap;
    match value.root {
        Val::Ref(object) => node_at(&NumberedObject { heap, object }).height,
        _ => 0,
    }
}

/// Returns the heights of the left and of the right subtree of a node.
#[inline(always)]
pub fn subtree_heights(heap: &Heap, node: TreeNode) -> (i64, i64)
    requires { IsValid (length heap.now) node }
    ensures left { result.0 ≡ parts.height_of heap.now node.left }
    ensures right { result.1 ≡ parts.height_of heap.now node.right }
    ensures left_small { IsInteger result.0 }
    ensures right_small { IsInteger result.1 }
{
    let left = Rooted {
        heap,
        root: node.left,
    };
    let right = Rooted {
        heap,
        root: node.right,
    };
    (height_of(&left), height_of(&right))
}

/// Returns true if the height of a node is not one more than the height of its higher subtree.
pub fn is_miscounted(placed: &NumberedObject<'_>) -> bool
    ensures { IsTrue result ↔ IsMiscounted placed.now.heap.now placed.now.object }
{
    let node = node_at(placed);
    let (left, right) = subtree_heights(placed.heap, node);
    is_count_wrong(placed.heap, placed.object as usize, node, left, right)
}

/// Returns true if the heights of the subtrees of a node differ by more than two.
pub fn is_unbalanced(placed: &NumberedObject<'_>) -> bool
    ensures { IsTrue result ↔ IsUnbalanced placed.now.heap.now placed.now.object }
{
    let node = node_at(placed);
    let (left, right) = subtree_heights(placed.heap, node);
    is_lopsided(placed.heap, placed.object as usize, node, left, right)
}

/// Returns true if the height of a node is not one more than the greater of `left` and `right`, the
/// heights of its subtrees.
#[inline(always)]
pub fn is_count_wrong(_heap: &Heap, _o: usize, node: TreeNode, left: i64, right: i64) -> bool
    requires node { node ≡ parts.node_at _heap.now _o }
    requires valid { IsValid (length _heap.now) node }
    requires left { left ≡ parts.height_of _heap.now node.left }
    requires right { right ≡ parts.height_of _heap.now node.right }
    requires left_small { IsInteger left }
    requires right_small { IsInteger right }
    ensures { IsTrue result ↔ IsMiscounted _heap.now _o }
{
    node.height != 1 + left.max(right)
}

/// Returns true if `left` and `right`, the heights of the subtrees of a node, differ by more than
/// two.
#[inline(always)]
pub fn is_lopsided(_heap: &Heap, _o: usize, _node: TreeNode, left: i64, right: i64) -> bool
    requires node { _node ≡ parts.node_at _heap.now _o }
    requires left { left ≡ parts.height_of _heap.now _node.left }
    requires right { right ≡ parts.height_of _heap.now _node.right }
    requires left_small { IsInteger left }
    requires right_small { IsInteger right }
    ensures { IsTrue result ↔ IsUnbalanced _heap.now _o }
{
    is_far(left, right) || is_far(right, left)
}

/// Returns true if `high` is more than two above `low`.
fn is_far(low: i64, high: i64) -> bool
    requires { IsInteger low }
    ensures { IsTrue result ↔ ((low +ℤ pos 2) <ℤ high) }
{
    low + 2 < high
}
