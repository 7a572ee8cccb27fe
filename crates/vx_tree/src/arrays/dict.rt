//! Dictionaries: arrays whose rows are looked up among values by codes.

ghost use Rattle.std.specs.Prelude.{◌≡◌, ◌⊎◌, refl, ℕ, ◌∷◌, [], IfOk, IfErr, OnOk, MatchResult, Some, None, true};
ghost use Rattle.vx_tree.specs.Tree.{dict, is_dict, dict_of, dict_refusal, codes_refusal, slots_of, dtype};
ghost use Rattle.vx_value.specs.Errors.{OnlyOutOfMemory};
ghost use Rattle.vx_value.specs.Types.{DataType};
ghost use Rattle.vx_value.specs.View.{type_of};
ghost use Rattle.vx_value.specs.Supported.{has_columns};
ghost use Rattle.vx_fn.specs.Meanings.{widen};
ghost use Rattle.vx_value.specs.declared.id.Id.TheVariants as id;
ghost use Rattle.vx_tree.specs.Well.{shape_of, shapes};

use crate::array::{
    Array, ArrayId, ArrayKind, ArrayParts, ArrayRef, Encoded, Encoding, EncodingKind,
    EncodingVariant, Node, VTable, present,
};
use crate::arrays::scalar_fn_validity::EmptyArrayData;
use crate::arrays::slots::is_integer;
use crate::arrays::{into_payload, payload};
use crate::conditions::check_that;
use crate::types::is_same_type;
use std::alloc::Global;
use vx_value::{ArgKind, DType, Id, VortexError, VortexResult};

/// The tag of the dictionary encoding.
#[derive(Clone, Copy, Debug)]
pub struct Dict;

impl EncodingKind for Dict {
    fn kind<'a>(node: &'a Node, _payload: &'a EmptyArrayData) -> ArrayKind<'a> {
        ArrayKind::Dict(present(&node.slots[0]), present(&node.slots[1]))
    }
}

impl Encoded for Dict {
    type TypedArrayData = EmptyArrayData;
}

impl EncodingVariant for Dict {
    fn wrap(payload: EmptyArrayData) -> Encoding {
        Encoding::Dict(payload)
    }

    ghost stands_for = { λ _. dict };

    ghost is_kind = { is_dict };

    fn project(encoding: &Encoding) -> Option<&EmptyArrayData> {
        payload!(encoding, Dict)
    }

    fn into_data(encoding: Encoding) -> Option<EmptyArrayData> {
        into_payload!(encoding, Dict)
    }

    ghost kind_of = { λ d. refl };
}

/// The values that its codes name. A null code makes the row null; a code that names no value is a fault of the row.
pub type DictArray = Array<Dict>;

impl VTable for Dict {
    ghost named = { λ _. id.Dict };

    fn id(&self) -> ArrayId {
        Id::Dict
    }

    fn tag(_payload: &EmptyArrayData) -> Dict {
        Dict
    }

    #[tactic(auto, using(crate::proofs::DictLemmas::dict_by_slots, crate::proofs::ConditionsLemmas::in_turn))]
    fn validate(alloc: Global, parts: &ArrayParts<Dict>) -> VortexResult<()> {
        let (codes, values) = codes_and_values(&parts.slots)?;
        check_that(is_integer(codes), ArgKind::SlotType { slot: 0 })?;
        check_that(
            is_same_type(&parts.dtype, &type_by(alloc, codes, values)?),
            ArgKind::NodeType,
        )?;
        check_that(parts.len == codes.len(), ArgKind::NodeLen)
    }
}

/// Returns the codes and the values of a dictionary with these slots. `InvalidArgument` with `SlotCount` or `SlotMissing` if
/// they aren't two present slots.
#[tactic(auto, using(crate::proofs::DictLemmas::dict_slot_count, crate::proofs::RefusalsLemmas::the_slots))]
fn codes_and_values(slots: &[Option<ArrayRef>]) -> VortexResult<(&ArrayRef, &ArrayRef)>
    ensures { MatchResult result
        (λ p. shapes (slots_of slots.now) ≡ Some (shape_of p.0.now) ∷ Some (shape_of p.1.now) ∷ [])
        (λ e. (ty : DataType) (n : ℕ) → dict_refusal ty n (shapes (slots_of slots.now)) ≡ Some e) }
{
    if slots.len() != 2 {
        return Err(VortexError::InvalidArgument(ArgKind::SlotCount));
    }
    match (&slots[0], &slots[1]) {
        (Some(codes), Some(values)) => Ok((codes, values)),
        (None, _) => Err(VortexError::InvalidArgument(ArgKind::SlotMissing { slot: 0 })),
        (Some(_), None) => Err(VortexError::InvalidArgument(ArgKind::SlotMissing { slot: 1 })),
    }
}

/// Returns the type of a dictionary: that of its values, nullable if its codes are. Fails only with `OutOfMemory`.
#[tactic(auto, using(crate::proofs::DictLemmas::named_columns))]
fn type_by(alloc: Global, codes: &ArrayRef, values: &ArrayRef) -> VortexResult<DType>
    ensures ok { IfOk result (λ t. type_of t ≡ widen (dtype codes.now) (dtype values.now)) }
    ensures columns { IfOk result (λ t. has_columns (type_of t) ≡ true) }
    ensures err { OnlyOutOfMemory result }
{
    let nullability = codes.dtype().nullability();
    let dtype = values.dtype();
    dtype.with_nullability(alloc, nullability.union(dtype.nullability()))
}

impl DictArray {
    /// Makes the array of the `values` that `codes` name, with as many rows as `codes` has. Its type is that of `values`,
    /// nullable if `codes` is. `InvalidArgument` with `SlotType` exactly if the codes aren't integers.
    pub fn try_new(alloc: Global, codes: ArrayRef, values: ArrayRef) -> VortexResult<DictArray>
        ensures ok { IfOk result (λ a. a ≡ dict_of codes values) }
        ensures valid { OnOk result (codes_refusal (dtype codes) ≡ None) }
        ensures refused { IfErr result (λ e. (e ≡ VortexError.OutOfMemory) ⊎ (codes_refusal (dtype codes) ≡ Some e)) }
    {
        check_that(is_integer(&codes), ArgKind::SlotType { slot: 0 })?;
        let dtype = type_by(alloc, &codes, &values)?;
        let len = codes.len();
        let slots = vec![in alloc; Some(codes), Some(values)]?;
        Ok(Array::of(alloc, dtype, len, EmptyArrayData, slots)?)
    }
}
