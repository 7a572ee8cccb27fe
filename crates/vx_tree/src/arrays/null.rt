//! Columns of nulls.

ghost use Rattle.std.specs.Prelude.{refl, ◌≡◌, IfOk};
ghost use Rattle.vx_value.specs.Errors.{OnlyOutOfMemory};
ghost use Rattle.vx_tree.specs.Tree.{nulls, is_nulls, nulls_of};
ghost use Rattle.vx_value.specs.declared.id.Id.TheVariants as id;

use crate::array::{
    Array, ArrayId, ArrayKind, ArrayParts, Encoded, Encoding, EncodingKind, EncodingVariant, Node,
    VTable,
};
use crate::arrays::child::no_child;
use crate::arrays::scalar_fn_validity::EmptyArrayData;
use crate::arrays::{into_payload, payload};
use crate::conditions::check_that;
use crate::types::is_same_type;
use std::alloc::Global;
use vx_value::{ArgKind, DType, Id, VortexResult};

/// The tag of the null encoding.
#[derive(Clone, Copy, Debug)]
pub struct Null;

impl EncodingKind for Null {
    #[tactic(auto, using(crate::proofs::KindsLemmas::kind_nulls))]
    fn kind<'a>(_node: &'a Node, _payload: &'a EmptyArrayData) -> ArrayKind<'a> {
        ArrayKind::Null
    }
}

impl Encoded for Null {
    type TypedArrayData = EmptyArrayData;
}

impl EncodingVariant for Null {
    fn wrap(payload: EmptyArrayData) -> Encoding {
        Encoding::Null(payload)
    }

    ghost stands_for = { λ _. nulls };

    ghost is_kind = { is_nulls };

    fn project(encoding: &Encoding) -> Option<&EmptyArrayData> {
        payload!(encoding, Null)
    }

    fn into_data(encoding: Encoding) -> Option<EmptyArrayData> {
        into_payload!(encoding, Null)
    }

    ghost kind_of = { λ d. refl };
}

/// A column of type `Null`: each row is null.
pub type NullArray = Array<Null>;

impl VTable for Null {
    ghost named = { λ _. id.Null };

    fn id(&self) -> ArrayId {
        Id::Null
    }

    fn tag(_payload: &EmptyArrayData) -> Null {
        Null
    }

    fn validate(_alloc: Global, parts: &ArrayParts<Null>) -> VortexResult<()> {
        no_child(&parts.slots)?;
        check_that(is_same_type(&parts.dtype, &DType::Null), ArgKind::BadType)
    }
}

impl NullArray {
    /// Makes the column of `len` nulls. Fails only with `OutOfMemory`.
    pub fn new(alloc: Global, len: usize) -> VortexResult<NullArray>
        ensures ok { IfOk result (λ a. a ≡ nulls_of len) }
        ensures err { OnlyOutOfMemory result }
    {
        Array::of(alloc, DType::Null, len, EmptyArrayData, Vec::new(alloc))
    }
}
