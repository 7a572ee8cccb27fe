//! Columns of stored values, null in each row that isn't valid.

ghost use Rattle.std.specs.Prelude.{◌≡◌, [], ◌&&◌, true, pos, map, length, slice_index_or, IfOk};
ghost use Rattle.std.specs.List.{range_with_len};
ghost use Rattle.vx_value.specs.Errors.{OnlyOutOfMemory};
ghost use Rattle.vx_value.specs.Nullabilities.{with_nullability};
ghost use Rattle.vx_value.specs.Cell.{value};
ghost use Rattle.vx_value.specs.Types as type;
ghost use Rattle.vx_value.specs.Types.{bool, primitive};
ghost use Rattle.vx_value.specs.Values.{boolean, integer, bytes as bytes_value, decimal as decimal_value};
ghost use Rattle.vx_mask.specs.Logic.{bit_row};
ghost use Rattle.vx_tree.specs.DecimalNumbers.{numbers_of, decimal_type_of};
ghost use Rattle.vx_tree.specs.Natives.{values_of, ptype_of};
ghost use Rattle.vx_tree.specs.ColumnTypes.{are_decimals_of, bytes_type, are_bytes_of};
ghost use Rattle.vx_tree.specs.Canonicals.{canonical_tree};
ghost use Rattle.vx_tree.specs.Tree.{dtype};
ghost use Rattle.vx_column.specs.Arguments.{stored_decimals};
ghost use Rattle.vx_column.specs.ValidRows.{is_valid, HasValidity, nullability_in};
ghost use Rattle.vx_column.specs.Computed.{IsColumnOfCells};
ghost use Rattle.vx_tree.specs.Views.{rows_of};

use crate::rows::{ValidRows, bool_column, decimal_column, primitive_column, varbinview_column};
use std::alloc::{AllocError, Global};
use vx_mask::{BitAnd, BitBuffer, BitOperand};
use vx_tree::{BinaryViews, Canonical, DecimalValues, PrimitiveValues};
use vx_value::{DecimalDType, Storage, VortexResult};

/// Makes the column of `bits`, `len` rows, null in each row that isn't `valid`, and stores `false` there. Fails only with
/// `OutOfMemory`. (own)
pub(crate) fn valid_bools(
    alloc: Global,
    bits: BitBuffer,
    valid: &ValidRows,
    len: usize,
) -> VortexResult<Canonical>
    requires bits { length bits ≡ len }
    requires valid { HasValidity valid.now len }
    ensures ok { IfOk result (λ c. (dtype (canonical_tree c) ≡ bool (nullability_in valid.now))
        × IsColumnOfCells valid.now (λ i. value (boolean (bit_row bits i))) len (canonical_tree c)) }
    ensures err { OnlyOutOfMemory result }
{
    let kept = keep_valid(alloc, bits, valid, len)?;
    let validity = valid.validity(alloc, len)?;
    bool_column(alloc, kept, &validity)
}

/// Makes the column of `values`, `len` rows, null in each row that isn't `valid`. Fails only with `OutOfMemory`. (own)
pub(crate) fn valid_integers(
    alloc: Global,
    values: PrimitiveValues,
    valid: &ValidRows,
    len: usize,
) -> VortexResult<Canonical>
    requires values { length (values_of values) ≡ len }
    requires valid { HasValidity valid.now len }
    ensures ok { IfOk result (λ c. (dtype (canonical_tree c) ≡ primitive (ptype_of values) (nullability_in valid.now))
        × IsColumnOfCells valid.now (λ i. value (integer (slice_index_or (values_of values) i (pos 0)))) len (canonical_tree c)) }
    ensures err { OnlyOutOfMemory result }
{
    let validity = valid.validity(alloc, len)?;
    primitive_column(alloc, values, &validity)
}

/// Makes the column of `values`, `len` decimals of type `decimal` without their points, null in each row that isn't `valid`.
/// Fails only with `OutOfMemory`. (own)
pub(crate) fn valid_decimals(
    alloc: Global,
    decimal: DecimalDType,
    values: DecimalValues,
    valid: &ValidRows,
    len: usize,
) -> VortexResult<Canonical>
    requires values { length (numbers_of values) ≡ len }
    requires stored { are_decimals_of (stored_decimals decimal) (decimal_type_of values) (numbers_of values) ≡ true }
    requires valid { HasValidity valid.now len }
    ensures ok { IfOk result (λ c. (dtype (canonical_tree c) ≡ type.decimal decimal.precision decimal.scale (nullability_in valid.now))
        × IsColumnOfCells valid.now (λ i. value (decimal_value (slice_index_or (numbers_of values) i (pos 0)) decimal.scale)) len (canonical_tree c)) }
    ensures err { OnlyOutOfMemory result }
{
    let validity = valid.validity(alloc, len)?;
    decimal_column(alloc, decimal, values, &validity)
}

/// Makes the column of `rows`, `len` values of this `storage`, null in each row that isn't `valid`. Fails only with
/// `OutOfMemory`. (own)
pub(crate) fn valid_bytes(
    alloc: Global,
    storage: Storage,
    rows: BinaryViews,
    valid: &ValidRows,
    len: usize,
) -> VortexResult<Canonical>
    requires rows { length rows.views ≡ len }
    requires stored { are_bytes_of storage (rows_of rows) ≡ true }
    requires valid { HasValidity valid.now len }
    ensures ok { IfOk result (λ c. (dtype (canonical_tree c) ≡ with_nullability (nullability_in valid.now) (bytes_type storage))
        × IsColumnOfCells valid.now (λ i. value (bytes_value (slice_index_or (rows_of rows) i []))) len (canonical_tree c)) }
    ensures err { OnlyOutOfMemory result }
{
    let validity = valid.validity(alloc, len)?;
    varbinview_column(alloc, storage, rows, &validity)
}

/// Returns `bits`, `len` rows, with `false` in each row that isn't valid. (own)
pub(crate) fn keep_valid(
    alloc: Global,
    bits: BitBuffer,
    valid: &ValidRows,
    len: usize,
) -> Result<BitBuffer, AllocError>
    requires bits { length bits ≡ len }
    requires valid { HasValidity valid.now len }
    ensures { IfOk result (λ b. b ≡ map (λ i. is_valid valid.now i && bit_row bits i) (range_with_len 0 len)) }
{
    match valid {
        ValidRows::All(_) => Ok(bits),
        ValidRows::Bits(valid) => {
            let valid = BitOperand::Bits(valid);
            BitBuffer::zip::<BitAnd>(alloc, valid, BitOperand::Bits(&bits), len)
        }
    }
}
