//! The data of each encoding, and the variant of `Encoding` that holds it.

ghost use Rattle.std.specs.Prelude.{◌≡◌, is_some, IfSome, Bool, true};
ghost use Rattle.vx_tree.specs.Tree.{Data};
ghost use Rattle.vx_tree.specs.TreeView.{data_of, tree_of};
ghost use Rattle.vx_tree.specs.Well.{IsNodeOf};
ghost use Rattle.vx_tree.specs.Kinds.{IsKindOf};

use crate::array::{ArrayKind, Encoding, Node};
use vx_value::Id;

/// The id of an encoding.
pub type ArrayId = Id;

/// Tags of encodings, with the type of the node data. (own: the original has the type in `VTable`)
pub trait Encoded {
    type TypedArrayData: Drop;
}

/// Encodings whose data a variant of `Encoding` holds. (own)
pub trait EncodingVariant: Encoded {
    // the data that its typed data stands for, and whether data is of the encoding
    ghost stands_for: { Self.TypedArrayData → Data };

    ghost is_kind: { Data → Bool };

    /// Returns `payload` as the data of a node. (own)
    fn wrap(payload: Self::TypedArrayData) -> Encoding
        ensures { data_of result ≡ stands_for payload };

    /// Returns the typed data of `encoding`, or `None` if it is of another encoding. (own)
    fn project(encoding: &Encoding) -> Option<&Self::TypedArrayData>
        ensures which { is_some result ≡ is_kind (data_of encoding.now) }
        ensures value { IfSome result (λ d. stands_for d.now ≡ data_of encoding.now) };

    /// Returns the typed data of `encoding` by value, or `None` if it is of another encoding. (own)
    fn into_data(encoding: Encoding) -> Option<Self::TypedArrayData>
        ensures which { is_some result ≡ is_kind (data_of encoding) }
        ensures value { IfSome result (λ d. stands_for d ≡ data_of encoding) };

    // the data that it stands for is of the encoding
    ghost kind_of: { (d : Self.TypedArrayData) → is_kind (stands_for d) ≡ true };
}

/// Encodings whose nodes can be opened. (own)
pub trait EncodingKind: EncodingVariant {
    /// Returns the data and children of `node`, whose data is `payload`. (own)
    fn kind<'a>(node: &'a Node, payload: &'a Self::TypedArrayData) -> ArrayKind<'a>
        requires well { IsNodeOf (tree_of node.now) }
        requires data { data_of node.now.encoding ≡ Self.stands_for payload.now }
        ensures { IsKindOf result (tree_of node.now) };
}

/// Calls a generic function at the encoding of `$encoding`, with its data as the last argument: a line for each encoding.
#[macro_export]
macro_rules! by_encoding {
    ($encoding:expr, $function:ident($($argument:expr),* $(,)?)) => {
        match $encoding {
            $crate::Encoding::Constant(data) => $function::<$crate::Constant>($($argument,)* data),
            $crate::Encoding::Slice(data) => $function::<$crate::Slice>($($argument,)* data),
            $crate::Encoding::Filter(data) => $function::<$crate::Filter>($($argument,)* data),
            $crate::Encoding::Masked(data) => $function::<$crate::Masked>($($argument,)* data),
            $crate::Encoding::ScalarFnValidity(data) => {
                $function::<$crate::ScalarFnValidity>($($argument,)* data)
            }
            $crate::Encoding::ScalarFn(data) => $function::<$crate::ScalarFn>($($argument,)* data),
            $crate::Encoding::Dict(data) => $function::<$crate::Dict>($($argument,)* data),
            $crate::Encoding::Chunked(data) => $function::<$crate::Chunked>($($argument,)* data),
            $crate::Encoding::Interleave(data) => $function::<$crate::Interleave>($($argument,)* data),
            $crate::Encoding::Null(data) => $function::<$crate::Null>($($argument,)* data),
            $crate::Encoding::Bool(data) => $function::<$crate::Bool>($($argument,)* data),
            $crate::Encoding::Primitive(data) => $function::<$crate::Primitive>($($argument,)* data),
            $crate::Encoding::Decimal(data) => $function::<$crate::Decimal>($($argument,)* data),
            $crate::Encoding::VarBinView(data) => $function::<$crate::VarBinView>($($argument,)* data),
            $crate::Encoding::Struct(data) => $function::<$crate::Struct>($($argument,)* data),
            $crate::Encoding::Extension(data) => $function::<$crate::Extension>($($argument,)* data),
        }
    };
}
