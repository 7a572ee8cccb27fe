//! Boolean columns.

ghost use Rattle.std.specs.Prelude.{refl, ◌≡◌, ◌⊎◌, IfOk, IfErr, OnOk, Some, None, length};
ghost use Rattle.vx_tree.specs.Tree as enc;
ghost use Rattle.vx_tree.specs.Tree.{is_bool, bool, column};
ghost use Rattle.vx_value.specs.View.{type_of};
ghost use Rattle.vx_value.specs.Types as type;
ghost use Rattle.vx_value.specs.declared.dtype.Nullability.TheVariants.{NonNullable};
ghost use Rattle.vx_value.specs.declared.id.Id.TheVariants as id;
ghost use Rattle.vx_tree.specs.Validities.{child_of, flat_refusal};

use crate::array::{
    Array, ArrayId, ArrayKind, ArrayParts, Encoded, Encoding, EncodingKind, EncodingVariant, Node,
    VTable,
};
use crate::arrays::column::{check_column, flat_column};
use crate::arrays::{into_payload, payload};
use crate::validity::Validity;
use std::alloc::Global;
use vx_mask::BitBuffer;
use vx_value::{DType, Id, Nullability, VortexError, VortexResult};

/// The tag of the boolean encoding.
#[derive(Clone, Copy, Debug)]
pub struct Bool;

impl EncodingKind for Bool {
    #[tactic(auto, using(crate::proofs::KindsLemmas::kind_flat))]
    fn kind<'a>(node: &'a Node, payload: &'a BoolData) -> ArrayKind<'a> {
        ArrayKind::Bool(&payload.bits, &node.slots[0])
    }
}

/// The data of a boolean column: one bit per row, also if the row is null.
#[derive(Clone, Debug, Drop)]
pub struct BoolData {
    pub bits: BitBuffer,
}

impl Encoded for Bool {
    type TypedArrayData = BoolData;
}

impl EncodingVariant for Bool {
    fn wrap(payload: BoolData) -> Encoding {
        Encoding::Bool(payload)
    }

    ghost stands_for = { λ d. enc.bool d.bits };

    ghost is_kind = { is_bool };

    fn project(encoding: &Encoding) -> Option<&BoolData> {
        payload!(encoding, Bool)
    }

    fn into_data(encoding: Encoding) -> Option<BoolData> {
        into_payload!(encoding, Bool)
    }

    ghost kind_of = { λ d. refl };
}

/// A column of booleans.
pub type BoolArray = Array<Bool>;

impl VTable for Bool {
    ghost named = { λ _. id.Bool };

    fn id(&self) -> ArrayId {
        Id::Bool
    }

    fn tag(_payload: &BoolData) -> Bool {
        Bool
    }

    fn validate(_alloc: Global, parts: &ArrayParts<Bool>) -> VortexResult<()> {
        check_column(
            parts,
            &DType::Bool(Nullability::NonNullable),
            parts.payload.bits.len(),
        )
    }
}

impl BoolArray {
    /// Makes the column of `bits`; `validity` says which rows are null. The bits of null rows are ignored.
    ///
    /// The first condition that fails gives the error: `InvalidArgument` with `BadType` exactly if `dtype` isn't `bool` with
    /// the nullability of `validity`, with `SlotType` exactly if the validity's array doesn't hold non-nullable booleans, and
    /// with `SlotLen` exactly if it doesn't have as many rows as there are bits.
    pub fn try_new(
        alloc: Global,
        dtype: DType,
        bits: BitBuffer,
        validity: &Validity,
    ) -> VortexResult<BoolArray>
        ensures ok { IfOk result (λ a. a ≡ column (type_of dtype) (length bits) (bool bits) (child_of validity.now (length bits))) }
        ensures valid { OnOk result (flat_refusal (type.bool NonNullable) (type_of dtype) (length bits) validity.now ≡ None) }
        ensures refused { IfErr result (λ e. (e ≡ VortexError.OutOfMemory)
            ⊎ (flat_refusal (type.bool NonNullable) (type_of dtype) (length bits) validity.now ≡ Some e)) }
    {
        let of_type = DType::Bool(Nullability::NonNullable);
        let len = bits.len();
        flat_column(alloc, dtype, &of_type, len, BoolData { bits }, validity)
    }
}
