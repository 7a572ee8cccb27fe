//! Rows of an array: by a range, by a mask, and by indices.

ghost use Rattle.std.specs.Prelude.{◌≡◌, ◌≤◌, ◌<◌, IfOk, IfErr, OnOk};
ghost use Rattle.vx_mask.specs.Masks.{bits_in};
ghost use Rattle.vx_tree.specs.Tree.{Tree, dtype, len, slice_of, filter_of, dict_of};
ghost use Rattle.vx_tree.specs.Columns.{empty_of};
ghost use Rattle.vx_tree.specs.Keeps.{Keeps};
ghost use Rattle.vx_rule.specs.Rules.{IsPartOf};
ghost use Rattle.vx_opt.specs.Answers.{IsOptimized};
ghost use Rattle.vx_opt.specs.Select.{IsRange, IsMaskOf, AreIndices, GivesJust, IsNoSlice, IsNoFilter, IsNoTake};

use crate::optimizer::ArrayOptimizer;
use std::alloc::Global;
use std::ops::Range;
use vx_mask::Mask;
use vx_tree::{ArrayRef, Canonical, DictArray, FilterArray, IntoArray, SliceArray};
use vx_value::VortexResult;

/// Lazy slices, filters and dictionaries, optimized. (own)
///
/// # Errors
///
/// Those of the node that is made, then those of `ArrayOptimizer::optimize`; `OutOfMemory`.
pub trait ArraySelect: Sized {
    // the tree whose rows are chosen
    ghost tree: { Self → Tree };

    /// Returns the rows in `range`: the array itself if these are all rows, and the empty column if there are none, neither of which meets a
    /// limit. `OutOfBounds` exactly unless start <= end <= the array's length.
    fn slice(&self, alloc: Global, range: Range<usize>) -> VortexResult<ArrayRef>
        ensures keeps { IfOk result (Keeps (slice_of range.start range.end (tree self.now))) }
        ensures whole { range.start ≡ 0 → range.end ≡ len (tree self.now) → GivesJust (tree self.now) result }
        ensures empty { range.start ≡ range.end → range.end ≤ len (tree self.now) → 0 < len (tree self.now)
            → GivesJust (empty_of (dtype (tree self.now))) result }
        ensures part { IsPartOf range.start range.end (tree self.now)
            → IfOk result (λ t. IsOptimized (slice_of range.start range.end (tree self.now)) t 0) }
        ensures valid { OnOk result (IsRange range.start range.end (tree self.now)) }
        ensures refused { IfErr result (IsNoSlice range.start range.end (tree self.now)) };

    /// Returns the rows that `mask` chooses. `InvalidArgument` with `MaskLen` exactly if the lengths differ.
    fn filter(&self, alloc: Global, mask: Mask) -> VortexResult<ArrayRef>
        ensures keeps { IfOk result (Keeps (filter_of (bits_in mask) (tree self.now))) }
        ensures optimized { IfOk result (λ t. IsOptimized (filter_of (bits_in mask) (tree self.now)) t 0) }
        ensures valid { OnOk result (IsMaskOf (bits_in mask) (tree self.now)) }
        ensures refused { IfErr result (IsNoFilter (bits_in mask) (tree self.now)) };

    /// Returns the rows that `indices` names, null where an index is; an index that names no row is a fault of its row.
    /// `InvalidArgument` with `SlotType` exactly if the indices aren't integers.
    fn take(&self, alloc: Global, indices: ArrayRef) -> VortexResult<ArrayRef>
        ensures keeps { IfOk result (Keeps (dict_of indices (tree self.now))) }
        ensures optimized { IfOk result (λ t. IsOptimized (dict_of indices (tree self.now)) t 0) }
        ensures valid { OnOk result (AreIndices indices) }
        ensures refused { IfErr result (IsNoTake indices (tree self.now)) };
}

impl ArraySelect for ArrayRef {
    ghost tree = { λ a. a };

    fn slice(&self, alloc: Global, range: Range<usize>) -> VortexResult<ArrayRef> {
        self.well_formed_tree();
        if range.start == 0 && range.end == self.len() {
            return Ok(self.clone()?);
        }
        if range.start == range.end && range.end <= self.len() {
            return Ok(Canonical::empty(alloc, self.dtype())?.into_array());
        }
        let node = SliceArray::try_new(alloc, self.clone()?, range)?;
        node.into_array().optimize(alloc)
    }

    fn filter(&self, alloc: Global, mask: Mask) -> VortexResult<ArrayRef> {
        let node = FilterArray::try_new(alloc, self.clone()?, mask)?;
        node.into_array().optimize(alloc)
    }

    fn take(&self, alloc: Global, indices: ArrayRef) -> VortexResult<ArrayRef> {
        let node = DictArray::try_new(alloc, indices, self.clone()?)?;
        node.into_array().optimize(alloc)
    }
}
