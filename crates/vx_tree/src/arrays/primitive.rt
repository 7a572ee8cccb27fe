//! Integer columns.

ghost use Rattle.std.specs.Prelude.{refl, ◌≡◌, ◌⊎◌, IfOk, IfErr, OnOk, Some, None, length};
ghost use Rattle.vx_tree.specs.Natives.{values_of, ptype_of};
ghost use Rattle.vx_tree.specs.Tree.{primitive, is_primitive, column};
ghost use Rattle.vx_value.specs.View.{type_of};
ghost use Rattle.vx_value.specs.Types as type;
ghost use Rattle.vx_value.specs.declared.dtype.Nullability.TheVariants.{NonNullable};
ghost use Rattle.vx_value.specs.declared.id.Id.TheVariants as id;
ghost use Rattle.vx_tree.specs.Validities.{child_of, flat_refusal};

use crate::array::{
    Array, ArrayId, ArrayKind, ArrayParts, Encoded, Encoding, EncodingKind, EncodingVariant, Node,
    VTable,
};
use crate::arrays::column::{check_column, flat_column};
use crate::arrays::{into_payload, payload};
use crate::native::PrimitiveValues;
use crate::validity::Validity;
use std::alloc::Global;
use vx_value::{DType, Id, Nullability, VortexError, VortexResult};

/// The tag of the primitive encoding.
#[derive(Clone, Copy, Debug)]
pub struct Primitive;

impl EncodingKind for Primitive {
    #[tactic(auto, using(crate::proofs::KindsLemmas::kind_flat))]
    fn kind<'a>(node: &'a Node, payload: &'a PrimitiveData) -> ArrayKind<'a> {
        ArrayKind::Primitive(&payload.values, &node.slots[0])
    }
}

/// The data of an integer column: a value in each row, also if the row is null.
#[derive(Clone, Debug, Drop)]
pub struct PrimitiveData {
    pub values: PrimitiveValues,
}

impl Encoded for Primitive {
    type TypedArrayData = PrimitiveData;
}

impl EncodingVariant for Primitive {
    fn wrap(payload: PrimitiveData) -> Encoding {
        Encoding::Primitive(payload)
    }

    ghost stands_for = { λ d. primitive (ptype_of d.values) (values_of d.values) };

    ghost is_kind = { is_primitive };

    fn project(encoding: &Encoding) -> Option<&PrimitiveData> {
        payload!(encoding, Primitive)
    }

    fn into_data(encoding: Encoding) -> Option<PrimitiveData> {
        into_payload!(encoding, Primitive)
    }

    ghost kind_of = { λ d. refl };
}

/// A column of integers.
pub type PrimitiveArray = Array<Primitive>;

impl VTable for Primitive {
    ghost named = { λ _. id.Primitive };

    fn id(&self) -> ArrayId {
        Id::Primitive
    }

    fn tag(_payload: &PrimitiveData) -> Primitive {
        Primitive
    }

    fn validate(_alloc: Global, parts: &ArrayParts<Primitive>) -> VortexResult<()> {
        let values = &parts.payload.values;
        let of_type = DType::Primitive(values.ptype(), Nullability::NonNullable);
        check_column(parts, &of_type, values.len())
    }
}

impl PrimitiveArray {
    /// Makes the column of `values`; `validity` says which rows are null. The values of null rows are ignored.
    ///
    /// The first condition that fails gives the error: `InvalidArgument` with `BadType` exactly if `dtype` isn't the values'
    /// type with the nullability of `validity`, with `SlotType` exactly if the validity's array doesn't hold non-nullable
    /// booleans, and with `SlotLen` exactly if it doesn't have as many rows as there are values.
    pub fn try_new(
        alloc: Global,
        dtype: DType,
        values: PrimitiveValues,
        validity: &Validity,
    ) -> VortexResult<PrimitiveArray>
        ensures ok { IfOk result (λ a. a ≡ column (type_of dtype) (length (values_of values)) (primitive (ptype_of values) (values_of values))
            (child_of validity.now (length (values_of values)))) }
        ensures valid { OnOk result (flat_refusal (type.primitive (ptype_of values) NonNullable) (type_of dtype) (length (values_of values)) validity.now ≡ None) }
        ensures refused { IfErr result (λ e. (e ≡ VortexError.OutOfMemory)
            ⊎ (flat_refusal (type.primitive (ptype_of values) NonNullable) (type_of dtype) (length (values_of values)) validity.now ≡ Some e)) }
    {
        let of_type = DType::Primitive(values.ptype(), Nullability::NonNullable);
        let len = values.len();
        flat_column(
            alloc,
            dtype,
            &of_type,
            len,
            PrimitiveData { values },
            validity,
        )
    }
}
