//! Arrays that repeat one value.

ghost use Rattle.std.specs.Prelude.{◌≡◌, ◌⊎◌, refl, IfOk, IfErr, OnOk, true, false};
ghost use Rattle.vx_value.specs.Errors.{OnlyOutOfMemory};
ghost use Rattle.vx_value.specs.Supported.{has_columns};
ghost use Rattle.vx_tree.specs.Tree.{constant, is_constant, constant_of};
ghost use Rattle.vx_value.specs.declared.id.Id.TheVariants as id;

use crate::array::{
    Array, ArrayId, ArrayKind, ArrayParts, Encoded, Encoding, EncodingKind, EncodingVariant, Node,
    VTable,
};
use crate::arrays::child::no_child;
use crate::arrays::{into_payload, payload};
use crate::conditions::check_that;
use crate::types::is_same_type;
use std::alloc::Global;
use vx_value::{ArgKind, Id, Scalar, VortexError, VortexResult, has_columns};

/// The tag of the constant encoding.
#[derive(Clone, Copy, Debug)]
pub struct Constant;

impl EncodingKind for Constant {
    #[tactic(auto, using(crate::proofs::KindsLemmas::kind_constant))]
    fn kind<'a>(_node: &'a Node, payload: &'a ConstantData) -> ArrayKind<'a> {
        ArrayKind::Constant(&payload.scalar)
    }
}

/// The data of a constant: the value of each row.
#[derive(Clone, Debug, Drop)]
pub struct ConstantData {
    pub scalar: Scalar,
}

impl ConstantData {
    /// Returns the data of a constant of `scalar`.
    pub fn new(scalar: Scalar) -> ConstantData
        ensures { result ≡ record { scalar = scalar } }
    {
        ConstantData { scalar }
    }

    /// Returns the value of each row.
    pub fn scalar(&self) -> &Scalar
        ensures { result.now ≡ self.now.scalar }
    {
        &self.scalar
    }
}

impl Encoded for Constant {
    type TypedArrayData = ConstantData;
}

impl EncodingVariant for Constant {
    fn wrap(payload: ConstantData) -> Encoding {
        Encoding::Constant(payload)
    }

    ghost stands_for = { λ d. constant d.scalar };

    ghost is_kind = { is_constant };

    fn project(encoding: &Encoding) -> Option<&ConstantData> {
        payload!(encoding, Constant)
    }

    fn into_data(encoding: Encoding) -> Option<ConstantData> {
        into_payload!(encoding, Constant)
    }

    ghost kind_of = { λ d. refl };
}

/// One value, repeated for any number of rows.
pub type ConstantArray = Array<Constant>;

impl VTable for Constant {
    ghost named = { λ _. id.Constant };

    fn id(&self) -> ArrayId {
        Id::Constant
    }

    fn tag(_payload: &ConstantData) -> Constant {
        Constant
    }

    fn validate(_alloc: Global, parts: &ArrayParts<Constant>) -> VortexResult<()> {
        no_child(&parts.slots)?;
        check_that(
            is_same_type(&parts.dtype, parts.payload.scalar.dtype()),
            ArgKind::NodeType,
        )
    }
}

impl ConstantArray {
    /// Makes the constant of `len` rows, each `scalar`.
    ///
    /// Returns `InvalidArgument` with `BadType` exactly if there are no columns of the scalar's type.
    pub fn new(alloc: Global, scalar: Scalar, len: usize) -> VortexResult<ConstantArray>
        ensures ok { IfOk result (λ a. a ≡ constant_of scalar len) }
        ensures valid { OnOk result (has_columns scalar.of_type ≡ true) }
        ensures refused { IfErr result (λ e. (e ≡ VortexError.OutOfMemory)
            ⊎ ((e ≡ VortexError.InvalidArgument ArgKind.BadType) × (has_columns scalar.of_type ≡ false))) }
    {
        if !has_columns(scalar.dtype()) {
            return Err(VortexError::InvalidArgument(ArgKind::BadType));
        }
        ConstantArray::new_unchecked(alloc, scalar, len)
    }

    /// Makes the constant of `len` rows, each `scalar`, of a type with columns, which isn't checked. Fails only with `OutOfMemory`.
    /// (own)
    pub fn new_unchecked(alloc: Global, scalar: Scalar, len: usize) -> VortexResult<ConstantArray>
        requires { has_columns scalar.of_type ≡ true }
        ensures ok { IfOk result (λ a. a ≡ constant_of scalar len) }
        ensures err { OnlyOutOfMemory result }
    {
        let dtype = scalar.dtype().clone()?;
        Array::of(alloc, dtype, len, ConstantData { scalar }, Vec::new(alloc))
    }
}
