//! Interleaved arrays: each row is a row of one of several arrays.

ghost use Rattle.std.specs.Prelude.{◌≡◌, ◌⊎◌, ◌≤◌, refl, length, IfOk, IfErr, OnOk, Some, None, true};
ghost use Rattle.vx_value.specs.Errors.{OnlyOutOfMemory};
ghost use Rattle.vx_value.specs.View.{type_of};
ghost use Rattle.vx_value.specs.Supported.{has_columns};
ghost use Rattle.vx_tree.specs.Conditions.{Checks};
ghost use Rattle.vx_tree.specs.Tree.{interleave, is_interleave, interleave_of, interleaved_refusal, present_refusal, first_type, slots_of};
ghost use Rattle.vx_tree.specs.Well.{shapes};
ghost use Rattle.vx_tree.specs.SlotTypes.{missing_refusal};
ghost use Rattle.vx_value.specs.declared.id.Id.TheVariants as id;

use crate::array::{
    Array, ArrayId, ArrayKind, ArrayParts, ArrayRef, Encoded, Encoding, EncodingKind,
    EncodingVariant, Node, VTable,
};
use crate::arrays::scalar_fn_validity::EmptyArrayData;
use crate::arrays::slots::{append_slots, check_present, check_types, is_index};
use crate::arrays::{into_payload, payload};
use crate::conditions::check_that;
use std::alloc::Global;
use vx_value::{ArgKind, DType, Id, VortexError, VortexResult};

/// The tag of the interleave encoding.
#[derive(Clone, Copy, Debug)]
pub struct Interleave;

impl EncodingKind for Interleave {
    fn kind<'a>(node: &'a Node, _payload: &'a EmptyArrayData) -> ArrayKind<'a> {
        ArrayKind::Interleave(&node.slots)
    }
}

impl Encoded for Interleave {
    type TypedArrayData = EmptyArrayData;
}

impl EncodingVariant for Interleave {
    fn wrap(payload: EmptyArrayData) -> Encoding {
        Encoding::Interleave(payload)
    }

    ghost stands_for = { λ _. interleave };

    ghost is_kind = { is_interleave };

    fn project(encoding: &Encoding) -> Option<&EmptyArrayData> {
        payload!(encoding, Interleave)
    }

    fn into_data(encoding: Encoding) -> Option<EmptyArrayData> {
        into_payload!(encoding, Interleave)
    }

    ghost kind_of = { λ d. refl };
}

/// Rows of several arrays: for each row, one index says which array, and one which of its rows. A pair that leaves its target
/// is a fault of the row.
pub type InterleaveArray = Array<Interleave>;

impl VTable for Interleave {
    ghost named = { λ _. id.Interleave };

    fn id(&self) -> ArrayId {
        Id::Interleave
    }

    fn tag(_payload: &EmptyArrayData) -> Interleave {
        Interleave
    }

    #[tactic(auto, using(crate::proofs::ConditionsLemmas::in_turn, crate::proofs::InterleaveLemmas::interleave_slot_count, crate::proofs::InterleaveLemmas::interleave_by_slots))]
    fn validate(_alloc: Global, parts: &ArrayParts<Interleave>) -> VortexResult<()> {
        let slots = &parts.slots;
        if slots.len() < 3 {
            return Err(VortexError::InvalidArgument(ArgKind::SlotCount));
        }
        check_present(slots)?;
        check_interleaved(&parts.dtype, parts.len, slots)
    }
}

/// Checks that these slots, three or more, each of which holds a tree, are those of `len` interleaved rows of type `dtype`.
#[tactic(auto, using(crate::proofs::ConditionsLemmas::in_turn))]
fn check_interleaved(dtype: &DType, len: usize, slots: &[Option<ArrayRef>]) -> VortexResult<()>
    requires many { 3 ≤ length slots.now }
    requires all { missing_refusal 0 (shapes (slots_of slots.now)) ≡ None }
    ensures { Checks result (present_refusal (type_of dtype.now) len (shapes (slots_of slots.now))) }
{
    let (Some(array_indices), Some(row_indices)) = (&slots[0], &slots[1]) else {
        unreachable!()
    };
    check_that(is_index(array_indices), ArgKind::SlotType { slot: 0 })?;
    check_that(is_index(row_indices), ArgKind::SlotType { slot: 1 })?;
    check_types(dtype, 2, slots)?;
    check_that(
        row_indices.len() == array_indices.len(),
        ArgKind::SlotLen { slot: 1 },
    )?;
    check_that(len == array_indices.len(), ArgKind::NodeLen)
}

/// Returns the type of the first array, the null type if there is none. Fails only with `OutOfMemory`.
fn first_type(values: &[ArrayRef]) -> VortexResult<DType>
    ensures ok { IfOk result (λ t. type_of t ≡ first_type values.now) }
    ensures columns { IfOk result (λ t. has_columns (type_of t) ≡ true) }
    ensures err { OnlyOutOfMemory result }
{
    match values.first() {
        Some(value) => Ok(value.dtype().clone()?),
        None => Ok(DType::Null),
    }
}

impl InterleaveArray {
    /// Makes the array whose row i is row `row_indices[i]` of `values[array_indices[i]]`.
    ///
    /// The first condition that fails gives the error: `InvalidArgument` with `SlotCount` if there are no values, `SlotType` of
    /// the first of both indices that isn't of non-nullable integers, or else of the first value that has another type than
    /// the first one, and `SlotLen` if the indices differ in length. Slots are numbered from the array indices on.
    #[tactic(auto, using(crate::proofs::InterleaveLemmas::interleaves))]
    pub fn try_new(
        alloc: Global,
        values: Vec<ArrayRef>,
        array_indices: ArrayRef,
        row_indices: ArrayRef,
    ) -> VortexResult<InterleaveArray>
        ensures ok { IfOk result (λ a. a ≡ interleave_of array_indices row_indices values.items) }
        ensures valid { OnOk result (interleaved_refusal array_indices row_indices values.items ≡ None) }
        ensures refused { IfErr result (λ e. (e ≡ VortexError.OutOfMemory)
            ⊎ (interleaved_refusal array_indices row_indices values.items ≡ Some e)) }
    {
        let dtype = first_type(values.as_slice())?;
        let len = array_indices.len();
        let indices = vec![in alloc; Some(array_indices), Some(row_indices)]?;
        let slots = append_slots(indices, values)?;
        let parts = ArrayParts::new(Interleave, dtype, len, EmptyArrayData, slots);
        Array::validated(alloc, parts)
    }
}
