//! Columns of extension types.

ghost use Rattle.std.specs.Prelude.{refl, ◌≡◌, ◌⊎◌, ◌∷◌, [], IfOk, IfErr, OnOk, Some, None};
ghost use Rattle.vx_value.specs.View.{type_of};
ghost use Rattle.vx_value.specs.declared.id.Id.TheVariants as id;
ghost use Rattle.vx_tree.specs.Tree.{composed, is_extension, node, slots_of, len};
ghost use Rattle.vx_tree.specs.Conditions.{Checks};
ghost use Rattle.vx_tree.specs.Well.{Shape, shape_of, shapes};
ghost use Rattle.vx_tree.specs.Tree.{extension_of, id_refusal, stored_refusal};
ghost use Rattle.vx_tree.specs.declared.array.layout.Layout.TheVariants as layout;

use crate::array::{
    Array, ArrayId, ArrayKind, ArrayParts, ArrayRef, Encoded, Encoding, EncodingKind,
    EncodingVariant, Layout, Node, VTable, present,
};
use crate::arrays::child::only_child;
use crate::arrays::scalar_fn_validity::EmptyArrayData;
use crate::arrays::{into_payload, payload};
use crate::conditions::check_that;
use crate::types::is_same_type;
use std::alloc::Global;
use vx_value::{ArgKind, DType, ExtDType, Id, Name, TypeRef, VortexError, VortexResult};

/// The tag of the encoding of extension types.
#[derive(Clone, Copy, Debug)]
pub struct Extension;

impl EncodingKind for Extension {
    fn kind<'a>(node: &'a Node, _payload: &'a EmptyArrayData) -> ArrayKind<'a> {
        ArrayKind::Composed(Layout::Extension, &node.slots)
    }
}

impl Encoded for Extension {
    type TypedArrayData = EmptyArrayData;
}

impl EncodingVariant for Extension {
    fn wrap(payload: EmptyArrayData) -> Encoding {
        Encoding::Extension(payload)
    }

    ghost stands_for = { λ _. composed layout.Extension };

    ghost is_kind = { is_extension };

    fn project(encoding: &Encoding) -> Option<&EmptyArrayData> {
        payload!(encoding, Extension)
    }

    fn into_data(encoding: Encoding) -> Option<EmptyArrayData> {
        into_payload!(encoding, Extension)
    }

    ghost kind_of = { λ d. refl };
}

/// A column of an extension type: that of its storage, whose rows are its rows.
pub type ExtensionArray = Array<Extension>;

impl VTable for Extension {
    ghost named = { λ _. id.Extension };

    fn id(&self) -> ArrayId {
        Id::Extension
    }

    fn tag(_payload: &EmptyArrayData) -> Extension {
        Extension
    }

    #[tactic(auto, using(crate::proofs::RefusalsLemmas::by_child, crate::proofs::ConditionsLemmas::in_turn))]
    fn validate(_alloc: Global, parts: &ArrayParts<Extension>) -> VortexResult<()> {
        check_storage(&parts.dtype, parts.len, only_child(&parts.slots)?)
    }
}

/// Checks that a column of type `dtype` and `len` rows may be stored as `storage`: `InvalidArgument` with `BadType` if `dtype`
/// isn't an extension, `SlotType` if its storage has another type, and `NodeLen` if that has another length.
#[tactic(auto, using(crate::proofs::ConditionsLemmas::in_turn))]
fn check_storage(dtype: &DType, len: usize, storage: &ArrayRef) -> VortexResult<()>
    ensures { Checks result (stored_refusal (type_of dtype.now) len (shape_of storage.now)) }
{
    let DType::Extension(extension) = dtype else {
        return Err(VortexError::InvalidArgument(ArgKind::BadType));
    };
    check_that(
        is_same_type(storage.dtype(), extension.storage()),
        ArgKind::SlotType { slot: 0 },
    )?;
    check_that(len == storage.len(), ArgKind::NodeLen)
}

impl ExtensionArray {
    /// Makes the column of the extension type `id` that is stored as `storage`.
    ///
    /// `InvalidArgument` with `BadType` exactly if `id` is empty.
    pub fn try_new(alloc: Global, id: Name, storage: ArrayRef) -> VortexResult<ExtensionArray>
        ensures ok { IfOk result (λ a. a ≡ extension_of id storage) }
        ensures valid { OnOk result (id_refusal id ≡ None) }
        ensures refused { IfErr result (λ e. (e ≡ VortexError.OutOfMemory) ⊎ (id_refusal id ≡ Some e)) }
    {
        let stored = TypeRef::new(alloc, storage.dtype().clone()?)?;
        let dtype = DType::Extension(ExtDType::try_new(id, stored)?);
        let len = storage.len();
        Array::over(alloc, dtype, len, EmptyArrayData, Some(storage))
    }
}

/// Returns the storage of a column of an extension type with these slots. (own)
pub fn extension_storage(slots: &[Option<ArrayRef>]) -> &ArrayRef
    requires { (s : Shape) × (shapes (slots_of slots.now) ≡ Some s ∷ []) }
    ensures { slots.now ≡ Some result.now ∷ [] }
{
    present(&slots[0])
}
