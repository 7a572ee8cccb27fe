//! Arrays with some rows made null.

ghost use Rattle.std.specs.Prelude.{refl, ◌≡◌, ℕ, ◌∷◌, [], MatchResult, IfOk, Some, option_map};
ghost use Rattle.vx_value.specs.Errors.{OnlyOutOfMemory};
ghost use Rattle.vx_tree.specs.Tree.{masked, is_masked, len, masked_of, slots_of, masked_refusal};
ghost use Rattle.vx_value.specs.Types.{DataType};
ghost use Rattle.vx_value.specs.declared.id.Id.TheVariants as id;
ghost use Rattle.vx_value.specs.declared.dtype.Nullability.TheVariants.{Nullable};
ghost use Rattle.vx_tree.specs.Well.{shape_of, shapes};
ghost use Rattle.vx_tree.specs.Validities.{HasRows, nullability_by, child_of};

use crate::array::{
    Array, ArrayId, ArrayKind, ArrayParts, ArrayRef, Encoded, Encoding, EncodingKind,
    EncodingVariant, Node, VTable, present,
};
use crate::arrays::column::{check_validity_len, check_validity_type};
use crate::arrays::{into_payload, payload};
use crate::conditions::check_that;
use crate::types::is_same_type;
use crate::validity::{Validity, validity_to_child};
use std::alloc::Global;
use vx_value::{ArgKind, Id, Nullability, VortexError, VortexResult};

/// The tag of the masked encoding.
#[derive(Clone, Copy, Debug)]
pub struct Masked;

impl EncodingKind for Masked {
    fn kind<'a>(node: &'a Node, _payload: &'a MaskedData) -> ArrayKind<'a> {
        ArrayKind::Masked(present(&node.slots[0]), &node.slots[1])
    }
}

/// The data of a masked array: none. The validity is in a slot.
#[derive(Clone, Copy, Debug)]
pub struct MaskedData;

impl Encoded for Masked {
    type TypedArrayData = MaskedData;
}

impl EncodingVariant for Masked {
    fn wrap(payload: MaskedData) -> Encoding {
        Encoding::Masked(payload)
    }

    ghost stands_for = { λ _. masked };

    ghost is_kind = { is_masked };

    fn project(encoding: &Encoding) -> Option<&MaskedData> {
        payload!(encoding, Masked)
    }

    fn into_data(encoding: Encoding) -> Option<MaskedData> {
        into_payload!(encoding, Masked)
    }

    ghost kind_of = { λ d. refl };
}

/// The rows of its child, null where its validity says so.
pub type MaskedArray = Array<Masked>;

impl VTable for Masked {
    ghost named = { λ _. id.Masked };

    fn id(&self) -> ArrayId {
        Id::Masked
    }

    fn tag(_payload: &MaskedData) -> Masked {
        Masked
    }

    #[tactic(auto, using(crate::proofs::MaskedLemmas::masked_by_slots, crate::proofs::ConditionsLemmas::in_turn))]
    fn validate(alloc: Global, parts: &ArrayParts<Masked>) -> VortexResult<()> {
        let (child, validity) = child_and_validity(&parts.slots)?;
        check_that(
            is_same_type(&parts.dtype, &child.dtype().as_nullable(alloc)?),
            ArgKind::NodeType,
        )?;
        check_validity_type(Nullability::Nullable, validity, 1)?;
        check_that(parts.len == child.len(), ArgKind::NodeLen)?;
        check_validity_len(parts.len, validity, 1)
    }
}

/// Returns the child of a masked array with these slots, and the slot of its validity. `InvalidArgument` with `SlotCount` or
/// `SlotMissing` if they aren't two or the first is empty.
#[tactic(auto, using(crate::proofs::MaskedLemmas::masked_slot_count, crate::proofs::RefusalsLemmas::the_slots))]
fn child_and_validity(slots: &[Option<ArrayRef>]) -> VortexResult<(&ArrayRef, &Option<ArrayRef>)>
    ensures { MatchResult result
        (λ p. shapes (slots_of slots.now) ≡ Some (shape_of p.0.now) ∷ option_map shape_of p.1.now ∷ [])
        (λ e. (ty : DataType) (n : ℕ) → masked_refusal ty n (shapes (slots_of slots.now)) ≡ Some e) }
{
    if slots.len() != 2 {
        return Err(VortexError::InvalidArgument(ArgKind::SlotCount));
    }
    match &slots[0] {
        Some(child) => Ok((child, &slots[1])),
        None => Err(VortexError::InvalidArgument(ArgKind::SlotMissing { slot: 0 })),
    }
}

impl MaskedArray {
    /// Makes the array of `child`'s rows that is null where `validity` says so. `validity` must be a nullable one of as many
    /// rows. `child` may have nulls too; a row that is null in either is null. Fails only with `OutOfMemory`.
    pub fn new_unchecked(
        alloc: Global,
        child: ArrayRef,
        validity: &Validity,
    ) -> VortexResult<MaskedArray>
        requires nullable { nullability_by validity.now ≡ Nullable }
        requires rows { HasRows validity.now (len child) }
        ensures ok { IfOk result (λ a. a ≡ masked_of child (child_of validity.now (len child))) }
        ensures err { OnlyOutOfMemory result }
    {
        let dtype = child.dtype().as_nullable(alloc)?;
        let len = child.len();
        let validity = validity_to_child(alloc, validity, len)?;
        let slots = vec![in alloc; Some(child), validity]?;
        Array::of(alloc, dtype, len, MaskedData, slots)
    }
}
