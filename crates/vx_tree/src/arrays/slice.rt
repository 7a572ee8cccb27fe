//! Lazy slices of other arrays.

ghost use Rattle.std.specs.Prelude.{◌≡◌, ◌-◌, ◌==◌, refl, ◌⊎◌, ◌≤◌, IfOk, IfErr, OnOk};
ghost use Rattle.vx_value.specs.Errors.{OnlyOutOfMemory};
ghost use Rattle.vx_tree.specs.Tree.{slice, is_slice, len, slice_of};
ghost use Rattle.vx_value.specs.declared.id.Id.TheVariants as id;

use crate::array::{
    Array, ArrayId, ArrayKind, ArrayParts, ArrayRef, Encoded, Encoding, EncodingKind,
    EncodingVariant, Node, VTable, present,
};
use crate::arrays::child::only_child;
use crate::arrays::{into_payload, payload};
use crate::conditions::check_that;
use crate::types::is_same_type;
use std::alloc::Global;
use std::ops::Range;
use vx_value::{ArgKind, Id, VortexError, VortexResult};

/// The tag of the slice encoding.
#[derive(Clone, Copy, Debug)]
pub struct Slice;

impl EncodingKind for Slice {
    fn kind<'a>(node: &'a Node, payload: &'a SliceData) -> ArrayKind<'a> {
        ArrayKind::Slice(
            present(&node.slots[0]),
            payload.range.start,
            payload.range.end,
        )
    }
}

/// The data of a slice: the range of the child's rows, from `start`, inclusive, to `end`, exclusive.
#[derive(Clone, Debug, Drop)]
pub struct SliceData {
    pub range: Range<usize>,
}

/// The parts of `SliceData`.
#[derive(Debug, Drop)]
pub struct SliceDataParts {
    /// The range of the child's rows, from `start`, inclusive, to `end`, exclusive.
    pub range: Range<usize>,
}

impl SliceData {
    /// Returns the data of a slice of `range`, which isn't checked.
    pub fn new(range: Range<usize>) -> SliceData
        ensures { result ≡ record { range = range } }
    {
        SliceData { range }
    }

    /// Returns the number of rows in the range, 0 if it is reversed.
    pub fn len(&self) -> usize
        ensures { result ≡ self.now.range.end - self.now.range.start }
    {
        self.range.end.saturating_sub(self.range.start)
    }

    /// Returns whether the range has no rows.
    pub fn is_empty(&self) -> bool
        ensures { result ≡ (self.now.range.end - self.now.range.start == 0) }
    {
        self.len() == 0
    }

    /// Returns the range of the child's rows.
    pub fn slice_range(&self) -> &Range<usize>
        ensures { result.now ≡ self.now.range }
    {
        &self.range
    }

    /// Returns the parts of the data.
    pub fn into_parts(self) -> SliceDataParts
        ensures { result ≡ record { range = self.range } }
    {
        SliceDataParts { range: self.range }
    }
}

impl Encoded for Slice {
    type TypedArrayData = SliceData;
}

impl EncodingVariant for Slice {
    fn wrap(payload: SliceData) -> Encoding {
        Encoding::Slice(payload)
    }

    ghost stands_for = { λ d. slice d.range.start d.range.end };

    ghost is_kind = { is_slice };

    fn project(encoding: &Encoding) -> Option<&SliceData> {
        payload!(encoding, Slice)
    }

    fn into_data(encoding: Encoding) -> Option<SliceData> {
        into_payload!(encoding, Slice)
    }

    ghost kind_of = { λ d. refl };
}

/// A lazy slice of its child.
pub type SliceArray = Array<Slice>;

impl VTable for Slice {
    ghost named = { λ _. id.Slice };

    fn id(&self) -> ArrayId {
        Id::Slice
    }

    fn tag(_payload: &SliceData) -> Slice {
        Slice
    }

    #[tactic(auto, using(crate::proofs::RefusalsLemmas::by_child, crate::proofs::ConditionsLemmas::in_turn))]
    fn validate(_alloc: Global, parts: &ArrayParts<Slice>) -> VortexResult<()> {
        let child = only_child(&parts.slots)?;
        check_that(is_same_type(&parts.dtype, child.dtype()), ArgKind::NodeType)?;
        check_that(parts.len == parts.payload.len(), ArgKind::NodeLen)?;
        check_range(&parts.payload.range, child.len())
    }
}

/// Checks that `range` is in order and in bounds. `OutOfBounds` unless start <= end <= `len`.
fn check_range(range: &Range<usize>, len: usize) -> VortexResult<()>
    ensures ok { OnOk result ((range.now.start ≤ range.now.end) × (range.now.end ≤ len)) }
    ensures refused { IfErr result (λ e. (e ≡ VortexError.OutOfBounds range.now.start range.now.end len)
        × (¬ ((range.now.start ≤ range.now.end) × (range.now.end ≤ len)))) }
{
    let (start, stop) = (range.start, range.end);
    if start <= stop && stop <= len {
        Ok(())
    } else {
        Err(VortexError::OutOfBounds { start, stop, len })
    }
}

impl SliceArray {
    /// Makes the lazy slice of `child` at `range`, which must be in order and in bounds.
    #[tactic(auto, using(crate::proofs::RefusalsLemmas::slice_is_node))]
    pub fn new(alloc: Global, child: ArrayRef, range: Range<usize>) -> VortexResult<SliceArray>
        requires { (range.start ≤ range.end) × (range.end ≤ len child) }
        ensures ok { IfOk result (λ a. a ≡ slice_of range.start range.end child) }
        ensures err { OnlyOutOfMemory result }
    {
        let dtype = child.dtype().clone()?;
        let len = range.end - range.start;
        Array::over(alloc, dtype, len, SliceData { range }, Some(child))
    }

    /// Makes the lazy slice of `child` at `range`. `OutOfBounds` exactly unless start <= end <= the child's length.
    pub fn try_new(alloc: Global, child: ArrayRef, range: Range<usize>) -> VortexResult<SliceArray>
        ensures ok { IfOk result (λ a. a ≡ slice_of range.start range.end child) }
        ensures valid { OnOk result ((range.start ≤ range.end) × (range.end ≤ len child)) }
        ensures refused { IfErr result (λ e. (e ≡ VortexError.OutOfMemory)
            ⊎ ((e ≡ VortexError.OutOfBounds range.start range.end (len child)) × (¬ ((range.start ≤ range.end) × (range.end ≤ len child))))) }
    {
        check_range(&range, child.len())?;
        SliceArray::new(alloc, child, range)
    }
}
