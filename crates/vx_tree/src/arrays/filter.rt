//! Lazy filters of other arrays.

ghost use Rattle.std.specs.Prelude.{◌≡◌, ◌==◌, refl, ◌⊎◌, ◌≢◌, IfOk, IfErr, OnOk, length};
ghost use Rattle.vx_value.specs.Errors.{OnlyOutOfMemory};
ghost use Rattle.vx_mask.specs.Masks.{bits_in};
ghost use Rattle.vx_mask.specs.Places.{true_count};
ghost use Rattle.vx_tree.specs.Tree.{filter, is_filter, len, filter_of};
ghost use Rattle.vx_value.specs.declared.id.Id.TheVariants as id;

use crate::array::{
    Array, ArrayId, ArrayKind, ArrayParts, ArrayRef, Encoded, Encoding, EncodingKind,
    EncodingVariant, Node, VTable, present,
};
use crate::arrays::child::only_child;
use crate::arrays::{into_payload, payload};
use crate::conditions::check_that;
use crate::types::is_same_type;
use std::alloc::Global;
use vx_mask::Mask;
use vx_value::{ArgKind, Id, VortexError, VortexResult};

/// The tag of the filter encoding.
#[derive(Clone, Copy, Debug)]
pub struct Filter;

impl EncodingKind for Filter {
    fn kind<'a>(node: &'a Node, payload: &'a FilterData) -> ArrayKind<'a> {
        ArrayKind::Filter(present(&node.slots[0]), &payload.mask)
    }
}

/// The data of a filter: the mask that chooses among the child's rows.
#[derive(Clone, Debug, Drop)]
pub struct FilterData {
    pub mask: Mask,
}

/// The parts of `FilterData`.
#[derive(Debug, Drop)]
pub struct FilterDataParts {
    /// The mask that chooses among the child's rows.
    pub mask: Mask,
}

impl FilterData {
    /// Returns the data of a filter by `mask`.
    pub fn new(mask: Mask) -> FilterData
        ensures { result ≡ record { mask = mask } }
    {
        FilterData { mask }
    }

    /// Returns the number of rows that the mask chooses.
    pub fn len(&self) -> usize
        ensures { result ≡ true_count (bits_in self.now.mask) }
    {
        self.mask.true_count()
    }

    /// Returns whether the mask chooses no row.
    pub fn is_empty(&self) -> bool
        ensures { result ≡ (true_count (bits_in self.now.mask) == 0) }
    {
        self.len() == 0
    }

    /// Returns the mask that chooses among the child's rows.
    pub fn filter_mask(&self) -> &Mask
        ensures { result.now ≡ self.now.mask }
    {
        &self.mask
    }

    /// Returns the parts of the data.
    pub fn into_parts(self) -> FilterDataParts
        ensures { result ≡ record { mask = self.mask } }
    {
        FilterDataParts { mask: self.mask }
    }
}

impl Encoded for Filter {
    type TypedArrayData = FilterData;
}

impl EncodingVariant for Filter {
    fn wrap(payload: FilterData) -> Encoding {
        Encoding::Filter(payload)
    }

    ghost stands_for = { λ d. filter (bits_in d.mask) };

    ghost is_kind = { is_filter };

    fn project(encoding: &Encoding) -> Option<&FilterData> {
        payload!(encoding, Filter)
    }

    fn into_data(encoding: Encoding) -> Option<FilterData> {
        into_payload!(encoding, Filter)
    }

    ghost kind_of = { λ d. refl };
}

/// A lazy filter of its child.
pub type FilterArray = Array<Filter>;

impl VTable for Filter {
    ghost named = { λ _. id.Filter };

    fn id(&self) -> ArrayId {
        Id::Filter
    }

    fn tag(_payload: &FilterData) -> Filter {
        Filter
    }

    #[tactic(auto, using(crate::proofs::RefusalsLemmas::by_child, crate::proofs::ConditionsLemmas::in_turn))]
    fn validate(_alloc: Global, parts: &ArrayParts<Filter>) -> VortexResult<()> {
        let child = only_child(&parts.slots)?;
        check_that(is_same_type(&parts.dtype, child.dtype()), ArgKind::NodeType)?;
        check_mask(child.len(), &parts.payload.mask)?;
        check_that(parts.len == parts.payload.len(), ArgKind::NodeLen)
    }
}

/// Checks that `mask` chooses among `len` rows.
fn check_mask(len: usize, mask: &Mask) -> VortexResult<()>
    ensures ok { OnOk result (length (bits_in mask.now) ≡ len) }
    ensures refused { IfErr result (λ e. (e ≡ VortexError.InvalidArgument (ArgKind.MaskLen len (length (bits_in mask.now)))) × (length (bits_in mask.now) ≢ len)) }
{
    if mask.len() == len {
        Ok(())
    } else {
        Err(VortexError::InvalidArgument(ArgKind::MaskLen {
            child: len,
            mask: mask.len(),
        }))
    }
}

impl FilterArray {
    /// Makes the lazy filter of `child` by `mask`, which must have as many rows.
    #[tactic(auto, using(crate::proofs::RefusalsLemmas::filter_is_node))]
    pub fn new(alloc: Global, child: ArrayRef, mask: Mask) -> VortexResult<FilterArray>
        requires { length (bits_in mask) ≡ len child }
        ensures ok { IfOk result (λ a. a ≡ filter_of (bits_in mask) child) }
        ensures err { OnlyOutOfMemory result }
    {
        let dtype = child.dtype().clone()?;
        let len = mask.true_count();
        Array::over(alloc, dtype, len, FilterData { mask }, Some(child))
    }

    /// Makes the lazy filter of `child` by `mask`. `InvalidArgument` with `MaskLen` exactly if their lengths differ.
    pub fn try_new(alloc: Global, child: ArrayRef, mask: Mask) -> VortexResult<FilterArray>
        ensures ok { IfOk result (λ a. a ≡ filter_of (bits_in mask) child) }
        ensures valid { OnOk result (length (bits_in mask) ≡ len child) }
        ensures refused { IfErr result (λ e. (e ≡ VortexError.OutOfMemory)
            ⊎ ((e ≡ VortexError.InvalidArgument (ArgKind.MaskLen (len child) (length (bits_in mask)))) × (length (bits_in mask) ≢ len child))) }
    {
        check_mask(child.len(), &mask)?;
        FilterArray::new(alloc, child, mask)
    }
}
