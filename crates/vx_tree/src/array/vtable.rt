//! What generic code can do with an encoding.

ghost use Rattle.std.specs.Prelude.{◌≡◌, ◌⊎◌, IfErr, OnOk, Some, None};
ghost use Rattle.vx_value.specs.View.{type_of};
ghost use Rattle.vx_value.specs.declared.id.Id.{Id as ArrayIdOf};
ghost use Rattle.vx_value.specs.declared.error.VortexError.TheVariants.{OutOfMemory};
ghost use Rattle.vx_tree.specs.Tree.{slots_of, id_of};
ghost use Rattle.vx_tree.specs.Well.{shapes};
ghost use Rattle.vx_tree.specs.Refusals.{refusal};

use crate::array::{ArrayId, ArrayParts, EncodingVariant};
use std::alloc::Global;
use vx_value::VortexResult;

/// Encodings, named by their tags.
pub trait VTable: EncodingVariant + Drop + Sized {
    // the id that a tag names
    ghost named: { Self → ArrayIdOf };

    /// Returns the id of the encoding, or of the function that the tag names.
    fn id(&self) -> ArrayId
        ensures { result ≡ named self.now };

    /// Returns the tag of a node with this data. (own)
    fn tag(payload: &Self::TypedArrayData) -> Self
        ensures { named result ≡ id_of (Self.stands_for payload.now) };

    /// Checks that these parts make a node.
    ///
    /// The first condition that fails gives the error: `InvalidArgument` with `SlotCount`, `SlotMissing`, then `BadType`,
    /// `SlotType` or `NodeType`, then `NodeLen`, and last `OutOfBounds`. For a function node the kinds are `FnSlotMissing`,
    /// `Arity`, `NodeType` if the tag is another function's, `NoRow`, `NodeType` if `dtype` isn't the function's result
    /// type, and last `ChildLen`.
    fn validate(alloc: Global, parts: &ArrayParts<Self>) -> VortexResult<()>
        ensures valid { OnOk result (refusal (named parts.now.vtable) (type_of parts.now.dtype) parts.now.len
            (Self.stands_for parts.now.payload) (shapes (slots_of parts.now.slots.items)) ≡ None) }
        ensures refused { IfErr result (λ e. (e ≡ OutOfMemory)
            ⊎ (refusal (named parts.now.vtable) (type_of parts.now.dtype) parts.now.len
            (Self.stands_for parts.now.payload) (shapes (slots_of parts.now.slots.items)) ≡ Some e)) };
}
