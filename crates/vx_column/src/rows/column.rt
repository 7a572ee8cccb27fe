//! Columns of stored values.

ghost use Rattle.std.specs.Prelude.{◌≡◌, length, true, false, IfOk};
ghost use Rattle.vx_value.specs.Errors.{OnlyOutOfMemory};
ghost use Rattle.vx_value.specs.Supported.{has_columns};
ghost use Rattle.vx_tree.specs.Tree.{constant_of};
ghost use Rattle.vx_tree.specs.Natives.{values_of, ptype_of};
ghost use Rattle.vx_tree.specs.DecimalNumbers.{numbers_of, decimal_type_of};
ghost use Rattle.vx_tree.specs.ColumnTypes.{are_decimals_of, are_bytes_of};
ghost use Rattle.vx_tree.specs.Validities.{HasRows};
ghost use Rattle.vx_tree.specs.Canonicals.{canonical_tree, columnar_tree};
ghost use Rattle.vx_column.specs.Arguments.{stored_decimals};
ghost use Rattle.vx_column.specs.Stored.{boolean_column, integer_column, decimal_column, bytes_column};
ghost use Rattle.vx_tree.specs.Views.{rows_of};

use std::alloc::Global;
use vx_mask::BitBuffer;
use vx_tree::{
    BinaryViews, BoolArray, Canonical, Columnar, ConstantArray, DecimalArray, DecimalValues,
    PrimitiveArray, PrimitiveValues, Validity, VarBinViewArray, bytes_type,
};
use vx_value::{DType, DecimalDType, Scalar, Storage, VortexResult};

/// Makes the column of `bits`; `validity` says which rows are null. Fails only with `OutOfMemory`.
#[tactic(auto, using(crate::proofs::NullRowsLemmas::flat_taken))]
pub(crate) fn bool_column(
    alloc: Global,
    bits: BitBuffer,
    validity: &Validity,
) -> VortexResult<Canonical>
    requires { HasRows validity.now (length bits) }
    ensures ok { IfOk result (λ c. canonical_tree c ≡ boolean_column bits validity.now) }
    ensures err { OnlyOutOfMemory result }
{
    let dtype = DType::Bool(validity.nullability());
    let column = BoolArray::try_new(alloc, dtype, bits, validity)?;
    Ok(Canonical::Bool(column))
}

/// Makes the column of `values`; `validity` says which rows are null. Fails only with `OutOfMemory`.
pub(crate) fn primitive_column(
    alloc: Global,
    values: PrimitiveValues,
    validity: &Validity,
) -> VortexResult<Canonical>
    requires { HasRows validity.now (length (values_of values)) }
    ensures ok { IfOk result (λ c. canonical_tree c ≡ integer_column (ptype_of values) (values_of values) validity.now) }
    ensures err { OnlyOutOfMemory result }
{
    let dtype = DType::Primitive(values.ptype(), validity.nullability());
    let column = PrimitiveArray::try_new(alloc, dtype, values, validity)?;
    Ok(Canonical::Primitive(column))
}

/// Makes the column of `values`, decimals of type `decimal` without their points; `validity` says which rows are null. Fails
/// only with `OutOfMemory`.
#[tactic(auto, using(crate::proofs::NullRowsLemmas::decimals_taken))]
pub(crate) fn decimal_column(
    alloc: Global,
    decimal: DecimalDType,
    values: DecimalValues,
    validity: &Validity,
) -> VortexResult<Canonical>
    requires sized { HasRows validity.now (length (numbers_of values)) }
    requires stored { are_decimals_of (stored_decimals decimal) (decimal_type_of values) (numbers_of values) ≡ true }
    ensures ok { IfOk result (λ c. canonical_tree c ≡ decimal_column decimal (decimal_type_of values) (numbers_of values) validity.now) }
    ensures err { OnlyOutOfMemory result }
{
    let dtype = DType::Decimal(decimal, validity.nullability());
    let column = DecimalArray::new_unchecked(alloc, dtype, values, validity)?;
    Ok(Canonical::Decimal(column))
}

/// Makes the column of `rows`, of values of this `storage`; `validity` says which rows are null. Fails only with `OutOfMemory`.
#[tactic(auto, using(crate::proofs::NullRowsLemmas::bytes_taken))]
pub(crate) fn varbinview_column(
    alloc: Global,
    storage: Storage,
    rows: BinaryViews,
    validity: &Validity,
) -> VortexResult<Canonical>
    requires sized { HasRows validity.now (length rows.views) }
    requires stored { are_bytes_of storage (rows_of rows) ≡ true }
    ensures ok { IfOk result (λ c. canonical_tree c ≡ bytes_column storage rows validity.now) }
    ensures err { OnlyOutOfMemory result }
{
    let dtype = bytes_type(storage, validity.nullability());
    let column = VarBinViewArray::new_unchecked(alloc, dtype, rows, validity)?;
    Ok(Canonical::VarBinView(column))
}

/// Makes the constant of `len` rows, each `scalar`, whose type must have columns. Fails only with `OutOfMemory`.
pub(crate) fn constant(alloc: Global, scalar: Scalar, len: usize) -> VortexResult<Columnar>
    requires { has_columns scalar.of_type ≡ true }
    ensures ok { IfOk result (λ c. columnar_tree c ≡ constant_of scalar len) }
    ensures err { OnlyOutOfMemory result }
{
    Ok(Columnar::Constant(ConstantArray::new_unchecked(alloc, scalar, len)?))
}
