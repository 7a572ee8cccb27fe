//! Chunked arrays: the rows of their chunks, one after the other.

ghost use Rattle.std.specs.Prelude.{◌≡◌, ◌⊎◌, ◌==◌, refl, sum, IfOk, IfErr, OnOk, Some, None, true, false};
ghost use Rattle.vx_tree.specs.Tree.{chunked, is_chunked, chunked_of, chunks_refusal, slots_of};
ghost use Rattle.vx_tree.specs.Well.{shapes};
ghost use Rattle.vx_tree.specs.SlotTypes.{lengths_in};
ghost use Rattle.vx_value.specs.View.{type_of};
ghost use Rattle.vx_value.specs.Supported.{has_columns};
ghost use Rattle.vx_value.specs.declared.id.Id.TheVariants as id;

use crate::array::{
    Array, ArrayId, ArrayKind, ArrayParts, ArrayRef, Encoded, Encoding, EncodingKind,
    EncodingVariant, Node, VTable,
};
use crate::arrays::scalar_fn_validity::EmptyArrayData;
use crate::arrays::slots::{append_slots, check_present, check_types, total_len};
use crate::arrays::{into_payload, payload};
use crate::conditions::check_that;
use std::alloc::Global;
use vx_value::{ArgKind, DType, Id, VortexError, VortexResult, has_columns};

/// The tag of the chunked encoding.
#[derive(Clone, Copy, Debug)]
pub struct Chunked;

impl EncodingKind for Chunked {
    fn kind<'a>(node: &'a Node, _payload: &'a EmptyArrayData) -> ArrayKind<'a> {
        ArrayKind::Chunked(&node.slots)
    }
}

impl Encoded for Chunked {
    type TypedArrayData = EmptyArrayData;
}

impl EncodingVariant for Chunked {
    fn wrap(payload: EmptyArrayData) -> Encoding {
        Encoding::Chunked(payload)
    }

    ghost stands_for = { λ _. chunked };

    ghost is_kind = { is_chunked };

    fn project(encoding: &Encoding) -> Option<&EmptyArrayData> {
        payload!(encoding, Chunked)
    }

    fn into_data(encoding: Encoding) -> Option<EmptyArrayData> {
        into_payload!(encoding, Chunked)
    }

    ghost kind_of = { λ d. refl };
}

/// The rows of its chunks, one after the other.
pub type ChunkedArray = Array<Chunked>;

impl VTable for Chunked {
    ghost named = { λ _. id.Chunked };

    fn id(&self) -> ArrayId {
        Id::Chunked
    }

    fn tag(_payload: &EmptyArrayData) -> Chunked {
        Chunked
    }

    #[tactic(auto, using(crate::proofs::ConditionsLemmas::in_turn))]
    fn validate(_alloc: Global, parts: &ArrayParts<Chunked>) -> VortexResult<()> {
        check_present(&parts.slots)?;
        check_types(&parts.dtype, 0, &parts.slots)?;
        check_that(has_total(parts.len, &parts.slots), ArgKind::NodeLen)
    }
}

/// Returns whether the trees in the slots have `len` rows together.
#[tactic(auto, using(crate::proofs::ChunkedLemmas::not_total))]
fn has_total(len: usize, slots: &[Option<ArrayRef>]) -> bool
    ensures { result ≡ (len == sum (lengths_in (shapes (slots_of slots.now)))) }
{
    match total_len(slots) {
        Ok(total) => len == total,
        Err(_) => false,
    }
}

impl ChunkedArray {
    /// Makes the array of the rows of `chunks`, one chunk after the other, each of which must be of type `dtype`.
    ///
    /// The first condition that fails gives the error: `InvalidArgument` with `BadType` if `dtype` has no columns, with
    /// `SlotType` of the first chunk that has another type, then `TooLong` if the rows together exceed `usize::MAX`.
    #[tactic(auto, using(crate::proofs::ChunkedLemmas::chunks, crate::proofs::SlotTypesLemmas::filled_map, crate::proofs::ConditionsLemmas::in_turn))]
    pub fn try_new(alloc: Global, chunks: Vec<ArrayRef>, dtype: DType) -> VortexResult<ChunkedArray>
        ensures ok { IfOk result (λ a. a ≡ chunked_of (type_of dtype) chunks.items) }
        ensures valid { OnOk result (chunks_refusal (type_of dtype) chunks.items ≡ None) }
        ensures columns { OnOk result (has_columns (type_of dtype) ≡ true) }
        ensures refused { IfErr result (λ e. (e ≡ VortexError.OutOfMemory)
            ⊎ ((e ≡ VortexError.InvalidArgument ArgKind.BadType) × (has_columns (type_of dtype) ≡ false))
            ⊎ (chunks_refusal (type_of dtype) chunks.items ≡ Some e)) }
    {
        if !has_columns(&dtype) {
            return Err(VortexError::InvalidArgument(ArgKind::BadType));
        }
        let slots = append_slots(Vec::new(alloc), chunks)?;
        check_types(&dtype, 0, slots.as_slice())?;
        let len = total_len(slots.as_slice())?;
        Ok(Array::of(alloc, dtype, len, EmptyArrayData, slots)?)
    }
}
