//! Arrays: shared nodes, the untyped references to them, typed handles and views, and what generic code can do with an
//! encoding.

mod encoded;
mod erased;
mod kind;
mod layout;
mod name;
mod node;
mod typed;
mod view;
mod vtable;

pub use encoded::{ArrayId, Encoded, EncodingKind, EncodingVariant};
pub use kind::ArrayKind;
pub(crate) use kind::present;
pub use layout::Layout;
pub use name::SlotName;
pub(crate) use node::know_well;
pub use node::{ArrayRef, ArraySlots, Encoding, Node};
pub use typed::{Array, ArrayParts, IntoArray};
pub use view::ArrayView;
pub use vtable::{VTable, VTable as ArrayVTable};
