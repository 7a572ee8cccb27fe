//! Lazy tests for null.

ghost use Rattle.std.specs.Prelude.{refl, ◌≡◌, IfOk};
ghost use Rattle.vx_value.specs.Errors.{OnlyOutOfMemory};
ghost use Rattle.vx_tree.specs.Tree.{is_valid, is_validity, validity_in};
ghost use Rattle.vx_value.specs.declared.id.Id.TheVariants as id;

use crate::array::{
    Array, ArrayId, ArrayKind, ArrayParts, ArrayRef, Encoded, Encoding, EncodingKind,
    EncodingVariant, Node, VTable, present,
};
use crate::arrays::child::only_child;
use crate::arrays::{into_payload, payload};
use crate::conditions::check_that;
use crate::types::{BOOLEANS, is_same_type};
use std::alloc::Global;
use std::fmt;
use vx_value::{ArgKind, DType, Id, Nullability, VortexResult};

/// The tag of the encoding that tests its child's rows for null.
#[derive(Clone, Copy, Debug)]
pub struct ScalarFnValidity;

impl EncodingKind for ScalarFnValidity {
    fn kind<'a>(node: &'a Node, _payload: &'a EmptyArrayData) -> ArrayKind<'a> {
        ArrayKind::ScalarFnValidity(present(&node.slots[0]))
    }
}

/// The data of a test for null: none.
#[derive(Clone, Copy, Debug, Default)]
pub struct EmptyArrayData;

/// Prints nothing.
impl fmt::Display for EmptyArrayData {
    fn fmt<W: fmt::Write>(&self, _f: &mut fmt::Formatter<W>) -> fmt::Result {
        Ok(())
    }
}

impl Encoded for ScalarFnValidity {
    type TypedArrayData = EmptyArrayData;
}

impl EncodingVariant for ScalarFnValidity {
    fn wrap(payload: EmptyArrayData) -> Encoding {
        Encoding::ScalarFnValidity(payload)
    }

    ghost stands_for = { λ _. is_valid };

    ghost is_kind = { is_validity };

    fn project(encoding: &Encoding) -> Option<&EmptyArrayData> {
        payload!(encoding, ScalarFnValidity)
    }

    fn into_data(encoding: Encoding) -> Option<EmptyArrayData> {
        into_payload!(encoding, ScalarFnValidity)
    }

    ghost kind_of = { λ d. refl };
}

/// A lazy test of its child's rows: true if the row is valid, that is, not null.
pub type ScalarFnValidityArray = Array<ScalarFnValidity>;

impl VTable for ScalarFnValidity {
    ghost named = { λ _. id.ScalarFnValidity };

    fn id(&self) -> ArrayId {
        Id::ScalarFnValidity
    }

    fn tag(_payload: &EmptyArrayData) -> ScalarFnValidity {
        ScalarFnValidity
    }

    #[tactic(auto, using(crate::proofs::RefusalsLemmas::by_child, crate::proofs::ConditionsLemmas::in_turn))]
    fn validate(_alloc: Global, parts: &ArrayParts<ScalarFnValidity>) -> VortexResult<()> {
        let child = only_child(&parts.slots)?;
        check_that(is_same_type(&parts.dtype, &BOOLEANS), ArgKind::NodeType)?;
        check_that(parts.len == child.len(), ArgKind::NodeLen)
    }
}

impl ScalarFnValidityArray {
    /// Makes the lazy test of which rows of `child` are valid. Fails only with `OutOfMemory`. (own)
    pub fn new(alloc: Global, child: ArrayRef) -> VortexResult<ScalarFnValidityArray>
        ensures ok { IfOk result (λ a. a ≡ validity_in child) }
        ensures err { OnlyOutOfMemory result }
    {
        let len = child.len();
        let dtype = DType::Bool(Nullability::NonNullable);
        Array::over(alloc, dtype, len, EmptyArrayData, Some(child))
    }
}
