//! Slices of flat columns, and empty ones.

ghost use Rattle.std.specs.Prelude.{◌≡◌, ◌≢◌, ◌≤◌, true, false, [], ◌∷◌, IfOk};
ghost use Rattle.vx_value.specs.Errors.{OnlyOutOfMemory};
ghost use Rattle.vx_value.specs.View.{type_of};
ghost use Rattle.vx_value.specs.Storage.{storage_of, is_nested};
ghost use Rattle.vx_value.specs.declared.dtype.Storage.TheVariants.{Nulls};
ghost use Rattle.vx_tree.specs.Tree.{datum, slots, slots_of, len, is_flat, slice_of};
ghost use Rattle.vx_tree.specs.Columns.{count_in, data_range, no_rows, empty_of};
ghost use Rattle.vx_tree.specs.Parts.{column_range};
ghost use Rattle.vx_tree.specs.Keeps.{KeepsExactly};
ghost use Rattle.vx_tree.specs.Well.{IsWell};

use crate::array::{Array, ArrayRef, VTable};
use crate::validity::slice_validity;
use std::alloc::Global;
use std::ops::Range;
use vx_value::{DType, VortexResult};

/// Encodings of flat columns: they hold the values of their rows themselves, and have one slot, for their validity. (own)
pub(crate) trait FlatEncoding: VTable {
    /// Returns no values of type `dtype`, whose canonical encoding must be this one. Fails only with `OutOfMemory`.
    fn no_values(alloc: Global, dtype: &DType) -> VortexResult<Self::TypedArrayData>
        requires { Self.is_kind (no_rows (storage_of (type_of dtype.now))) ≡ true }
        ensures ok { IfOk result (λ none. Self.stands_for none ≡ no_rows (storage_of (type_of dtype.now))) }
        ensures err { OnlyOutOfMemory result };

    /// Returns the values of the rows in `range`, which must be in order and in bounds. They share their storage with
    /// `payload`. Fails only with `OutOfMemory`.
    fn slice_values(
        payload: &Self::TypedArrayData,
        range: Range<usize>,
    ) -> VortexResult<Self::TypedArrayData>
        requires order { range.start ≤ range.end }
        requires bounds { range.end ≤ count_in (Self.stands_for payload.now) }
        ensures ok { IfOk result (λ part. Self.stands_for part ≡ data_range range.start range.end (Self.stands_for payload.now)) }
        ensures err { OnlyOutOfMemory result };

    // a node with its data is such a column
    ghost flat: { (d : Self.TypedArrayData) → is_flat (Self.stands_for d) ≡ true };
}

/// Makes the column of type `dtype`, whose canonical encoding must be `V`'s, without rows. Fails only with `OutOfMemory`.
pub(crate) fn flat_empty<V: FlatEncoding>(alloc: Global, dtype: &DType) -> VortexResult<Array<V>>
    requires stored { storage_of (type_of dtype.now) ≢ Nulls }
    requires kind { V.is_kind (no_rows (storage_of (type_of dtype.now))) ≡ true }
    requires unnested { is_nested (type_of dtype.now) ≡ false }
    ensures ok { IfOk result (λ a. a ≡ empty_of (type_of dtype.now)) }
    ensures err { OnlyOutOfMemory result }
{
    let payload = V::no_values(alloc, dtype)?;
    Array::over(alloc, dtype.clone()?, 0, payload, None)
}

/// Returns the rows of `column` in `range`, which must be in order and in bounds, as a column that shares its storage. Fails
/// only with `OutOfMemory`.
pub(crate) fn flat_slice<V: FlatEncoding>(
    alloc: Global,
    column: &Array<V>,
    range: Range<usize>,
) -> VortexResult<Array<V>>
    requires { (range.start ≤ range.end) × (range.end ≤ len column.now) }
    ensures ok { IfOk result (λ a. KeepsExactly (slice_of range.start range.end column.now) a) }
    ensures range { IfOk result (λ a. a ≡ column_range range.start range.end column.now) }
    ensures err { OnlyOutOfMemory result }
{
    let validity = flat_validity(column);
    let (start, end) = (range.start, range.end);
    let validity = slice_validity(alloc, validity, start..end)?;
    let dtype = column.dtype().clone()?;
    let payload = V::slice_values(column.data(), range)?;
    Array::over(alloc, dtype, end - start, payload, validity)
}

/// Returns the slot of the validity of `column`, its only one; states that `column` is flat and well formed.
fn flat_validity<V: FlatEncoding>(column: &Array<V>) -> &Option<ArrayRef>
    ensures slot { slots column.now ≡ slots_of (result.now ∷ []) }
    ensures flat { is_flat (datum column.now) ≡ true }
    ensures formed { IsWell column.now }
{
    let _data = column.data();
    column.as_array().well_formed_tree();
    &column.slots()[0]
}
