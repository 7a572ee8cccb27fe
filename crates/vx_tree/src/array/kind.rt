//! Nodes, opened.

ghost use Rattle.std.specs.Prelude.{◌≡◌, Some, true};
ghost use Rattle.vx_tree.specs.TreeView.{data_of, tree_of};
ghost use Rattle.vx_tree.specs.Well.{IsNodeOf};
ghost use Rattle.vx_tree.specs.Kinds.{IsKindOf};
ghost use Rattle.vx_tree.specs.Refusals.{is_present};

use crate::array::{ArrayRef, EncodingKind, Layout, Node};
use crate::by_encoding;
use crate::native::{DecimalValues, PrimitiveValues};
use crate::views::BinaryViews;
use vx_fn::ScalarFnRef;
use vx_mask::{BitBuffer, Mask};
use vx_value::Scalar;

/// The root of a tree, with its data and children by their roles. (own)
#[derive(Clone, Copy)]
pub enum ArrayKind<'a> {
    /// The value of each row.
    Constant(&'a Scalar),
    /// The child, and the range of its rows: the start, inclusive, and the stop, exclusive.
    Slice(&'a ArrayRef, usize, usize),
    /// The child, and the mask that chooses among its rows.
    Filter(&'a ArrayRef, &'a Mask),
    /// The child, and the slot of the validity that makes rows of it null.
    Masked(&'a ArrayRef, &'a Option<ArrayRef>),
    /// The child whose rows are tested for null.
    ScalarFnValidity(&'a ArrayRef),
    /// The function, and the slots of its arguments. Each slot has a tree.
    ScalarFn(&'a ScalarFnRef, &'a [Option<ArrayRef>]),
    /// The codes, and the values that they name.
    Dict(&'a ArrayRef, &'a ArrayRef),
    /// The slots of the chunks, whose rows follow one another. Each slot has a tree.
    Chunked(&'a [Option<ArrayRef>]),
    /// The slots of the array indices, of the row indices, and of the arrays that they name. Each slot has a tree.
    Interleave(&'a [Option<ArrayRef>]),
    /// Nothing: each row is null.
    Null,
    /// The rows of a column of booleans, and the slot of its validity.
    Bool(&'a BitBuffer, &'a Option<ArrayRef>),
    /// The rows of a column of integers, and the slot of its validity.
    Primitive(&'a PrimitiveValues, &'a Option<ArrayRef>),
    /// The rows of a column of decimals, without their points, and the slot of its validity.
    Decimal(&'a DecimalValues, &'a Option<ArrayRef>),
    /// The rows of a column of text or bytes, and the slot of its validity.
    VarBinView(&'a BinaryViews, &'a Option<ArrayRef>),
    /// How a column of a nested type is laid out, and its slots.
    Composed(Layout, &'a [Option<ArrayRef>]),
}

impl ArrayRef {
    /// Returns the data and children of the root. (own)
    pub fn kind(&self) -> ArrayKind<'_>
        ensures { IsKindOf result self.now }
    {
        opened(&self.node)
    }
}

/// Returns the data and children of `node`: a line for each encoding.
fn opened(node: &Node) -> ArrayKind<'_>
    requires { IsNodeOf (tree_of node.now) }
    ensures { IsKindOf result (tree_of node.now) }
{
    by_encoding!(&node.encoding, kind_of(node))
}

/// Returns the data and children of `node`, whose encoding is `V` and whose data is `payload`.
#[inline]
fn kind_of<'a, V: EncodingKind>(node: &'a Node, payload: &'a V::TypedArrayData) -> ArrayKind<'a>
    requires well { IsNodeOf (tree_of node.now) }
    requires data { data_of node.now.encoding ≡ V.stands_for payload.now }
    ensures { IsKindOf result (tree_of node.now) }
{
    V::kind(node, payload)
}

/// Returns the tree in `slot`, which must have one.
pub(crate) fn present(slot: &Option<ArrayRef>) -> &ArrayRef
    requires { is_present slot.now ≡ true }
    ensures { slot.now ≡ Some result.now }
{
    let Some(child) = slot else { unreachable!() };
    child
}
