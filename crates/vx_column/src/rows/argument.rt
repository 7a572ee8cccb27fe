//! Columns as the arguments of a function.

ghost use Rattle.std.specs.Prelude.{◌≡◌, ◌<◌, ℕ, map, IfOk, IfErr, false, replicate};
ghost use Rattle.std.specs.List.{AllZip};
ghost use Rattle.vx_value.specs.Errors.{OnlyOutOfMemory};
ghost use Rattle.vx_value.specs.Types.{nullability_of};
ghost use Rattle.vx_value.specs.Storage.{is_nested};
ghost use Rattle.vx_tree.specs.Canonicals.{columnar_tree};
ghost use Rattle.vx_tree.specs.Tree.{dtype, len};
ghost use Rattle.vx_column.specs.Arguments.{IsArgument, IsTold, IsUnread, IsRepeated, any_nested, AreUnread, AnyUnread, AreBytes, ptype_in, bytes_in, unscaled_of};
ghost use Rattle.vx_column.specs.ValidRows.{TellsRows, IsRepeatedValidity};
ghost use Rattle.vx_column.specs.declared.rows.argument.ArgumentRows.TheVariants.{Integers, Decimals, Bytes};
ghost use Rattle.vx_column.specs.declared.rows.valid.ValidRows.TheVariants.{Bits};

use crate::rows::probe::truths_in;
use crate::rows::valid::ValidRows;
use std::alloc::Global;
use vx_mask::{BitBuffer, BitOperand};
use vx_tree::{ArrayKind, ArrayRef, BinaryViews, Columnar, DecimalValues, PrimitiveValues};
use vx_value::{DType, DecimalDType, PType, Scalar, Storage, VortexResult};

/// An argument: its rows, and which of them are valid.
#[derive(Drop)]
pub struct Argument<'a> {
    pub rows: ArgumentRows<'a>,
    pub valid: ValidRows,
}

/// The rows of an argument, by how they are stored: a column, or one value for every row. Null rows store a value too.
#[derive(Clone, Copy)]
pub enum ArgumentRows<'a> {
    /// No values: each row is null.
    Nulls,
    Bits(BitOperand<'a>),
    Integers(IntegerOperand<'a>),
    Decimals(DecimalOperand<'a>),
    Bytes(BytesOperand<'a>),
}

/// Integers, and their type.
#[derive(Clone, Copy)]
pub struct IntegerOperand<'a> {
    pub dtype: &'a DType,
    pub rows: IntegerRows<'a>,
}

/// Integers of one integer type.
#[derive(Clone, Copy)]
pub enum IntegerRows<'a> {
    /// An integer for each row.
    Rows(&'a PrimitiveValues),
    /// One integer for every row, in the range of its type.
    Value(PType, i128),
}

/// Decimals without their points, and their type.
#[derive(Clone, Copy)]
pub struct DecimalOperand<'a> {
    pub decimal: DecimalDType,
    pub rows: DecimalRows<'a>,
}

/// Decimals of one type, without their points.
#[derive(Clone, Copy)]
pub enum DecimalRows<'a> {
    /// A number for each row, in integers of the narrowest width that the type allows.
    Rows(&'a DecimalValues),
    /// One number for every row.
    Value(i128),
}

/// Rows of text or bytes; `storage` says which.
#[derive(Clone, Copy)]
pub struct BytesOperand<'a> {
    pub storage: Storage,
    pub rows: BytesRows<'a>,
}

/// Rows of bytes.
#[derive(Clone, Copy)]
pub enum BytesRows<'a> {
    /// Bytes for each row.
    Rows(&'a BinaryViews),
    /// The same bytes for every row.
    Value(&'a [u8]),
}

impl BytesOperand<'_> {
    /// Returns the bytes of row `index`, which must exist.
    pub fn value(&self, index: usize) -> &[u8]
        requires { (n : ℕ) × (index < n) × AreBytes self.now n }
        ensures { result.now ≡ bytes_in self.now index }
    {
        match self.rows {
            BytesRows::Rows(rows) => rows.value(index),
            BytesRows::Value(bytes) => bytes,
        }
    }
}

impl IntegerOperand<'_> {
    /// Returns the type of the integers.
    pub fn ptype(self) -> PType
        ensures { result ≡ ptype_in self.entry }
    {
        match self.rows {
            IntegerRows::Rows(values) => values.ptype(),
            IntegerRows::Value(ptype, _) => ptype,
        }
    }
}

/// Returns the rows of `column`, whose type must not be nested. `Fault` if a row has no value.
pub fn argument_of(alloc: Global, column: &Columnar) -> VortexResult<Argument<'_>>
    requires { is_nested (dtype (columnar_tree column.now)) ≡ false }
    ensures ok { IfOk result (IsArgument column.now) }
    ensures err { IfErr result (IsUnread (columnar_tree column.now)) }
{
    let dtype = column.dtype();
    match column.as_array().kind() {
        ArrayKind::Null => null_argument(alloc, ArgumentRows::Nulls, column.len()),
        ArrayKind::Bool(bits, validity) => {
            column_argument(
                alloc,
                column,
                ArgumentRows::Bits(BitOperand::Bits(bits)),
                validity,
            )
        }
        ArrayKind::Primitive(values, validity) => {
            column_argument(
                alloc,
                column,
                integers_of(dtype, IntegerRows::Rows(values)),
                validity,
            )
        }
        ArrayKind::Decimal(values, validity) => {
            let DType::Decimal(decimal, _) = dtype else {
                unreachable!()
            };
            let rows = decimals_of(*decimal, DecimalRows::Rows(values));
            column_argument(alloc, column, rows, validity)
        }
        ArrayKind::VarBinView(rows, validity) => {
            let rows = bytes_of(dtype.storage(), BytesRows::Rows(rows));
            column_argument(alloc, column, rows, validity)
        }
        ArrayKind::Constant(scalar) => constant_argument(alloc, scalar, column.len()),
        _ => unreachable!(),
    }
}

/// Returns `rows`, those of `column`, and which of them are valid by its `validity`. `Fault` if a row of `validity` has no
/// value.
fn column_argument<'a>(
    alloc: Global,
    column: &Columnar,
    rows: ArgumentRows<'a>,
    validity: &Option<ArrayRef>,
) -> VortexResult<Argument<'a>>
    requires { TellsRows (nullability_of (dtype (columnar_tree column.now))) (len (columnar_tree column.now)) validity.now }
    ensures ok { IfOk result (IsTold (columnar_tree column.now) rows.entry validity.now) }
    ensures err { IfErr result (AreUnread (len (columnar_tree column.now)) validity.now) }
{
    let Some(child) = validity else {
        return Ok(Argument {
            rows,
            valid: ValidRows::All(column.dtype().nullability()),
        });
    };
    match truths_in(alloc, child) {
        Ok(bits) => Ok(Argument {
            rows,
            valid: ValidRows::from_bits(bits),
        }),
        Err(e) => Err(e),
    }
}

/// Returns `rows`, of values of type `dtype`, as the rows of an argument.
fn integers_of<'a>(dtype: &'a DType, rows: IntegerRows<'a>) -> ArgumentRows<'a>
    ensures { result ≡ Integers (record { dtype = dtype.entry; rows = rows.entry }) }
{
    ArgumentRows::Integers(IntegerOperand { dtype, rows })
}

/// Returns `rows`, decimals of type `decimal` without their points, as the rows of an argument.
fn decimals_of(decimal: DecimalDType, rows: DecimalRows<'_>) -> ArgumentRows<'_>
    ensures { result ≡ Decimals (record { decimal = decimal; rows = rows.entry }) }
{
    ArgumentRows::Decimals(DecimalOperand { decimal, rows })
}

/// Returns `rows`, of values of this `storage`, as the rows of an argument.
fn bytes_of(storage: Storage, rows: BytesRows<'_>) -> ArgumentRows<'_>
    ensures { result ≡ Bytes (record { storage = storage; rows = rows.entry }) }
{
    ArgumentRows::Bytes(BytesOperand { storage, rows })
}

/// Returns the rows of a constant, each `scalar`, whose type must not be nested; null rows store `false`, 0 or no bytes. (own)
#[tactic(auto, using(crate::proofs::StoredLemmas::stored_integer))]
pub(crate) fn repeated_rows(scalar: &Scalar) -> ArgumentRows<'_>
    requires { is_nested scalar.now.of_type ≡ false }
    ensures { IsRepeated scalar.now result }
{
    let dtype = scalar.dtype();
    match dtype.storage() {
        Storage::Nulls => ArgumentRows::Nulls,
        Storage::Bits => ArgumentRows::Bits(BitOperand::Bit(scalar.as_bool().unwrap_or(false))),
        Storage::Integers(ptype) => {
            let wide = scalar.as_integer().unwrap_or(0);
            integers_of(dtype, IntegerRows::Value(ptype, wide))
        }
        Storage::Decimals { .. } => {
            let DType::Decimal(decimal, _) = dtype else {
                unreachable!()
            };
            decimals_of(*decimal, DecimalRows::Value(unscaled_of(scalar)))
        }
        Storage::Text | Storage::Bytes => {
            let bytes = scalar.as_bytes().unwrap_or(&[]);
            bytes_of(dtype.storage(), BytesRows::Value(bytes))
        }
        Storage::Nested => unreachable!(),
    }
}

/// Returns the number of the decimal `scalar` without its point, or 0 if it isn't a decimal. (own)
pub(crate) fn unscaled_of(scalar: &Scalar) -> i128
    ensures { result ≡ unscaled_of scalar.now.value }
{
    match scalar.as_decimal() {
        Some(decimal) => decimal.unscaled,
        None => 0,
    }
}

/// Returns the rows of a constant of `len` rows, each `scalar`, whose type must not be nested. Fails only with `OutOfMemory`.
fn constant_argument(alloc: Global, scalar: &Scalar, len: usize) -> VortexResult<Argument<'_>>
    requires { is_nested scalar.now.of_type ≡ false }
    ensures rows { IfOk result (λ a. IsRepeated scalar.now a.rows) }
    ensures valid { IfOk result (λ a. IsRepeatedValidity scalar.now len a.valid) }
    ensures err { OnlyOutOfMemory result }
{
    let dtype = scalar.dtype();
    let rows = repeated_rows(scalar);
    if scalar.is_null() {
        null_argument(alloc, rows, len)
    } else {
        let valid = ValidRows::All(dtype.nullability());
        Ok(Argument { rows, valid })
    }
}

/// Returns the argument of `rows`, `len` rows that are all null. Fails only with `OutOfMemory`.
fn null_argument(alloc: Global, rows: ArgumentRows<'_>, len: usize) -> VortexResult<Argument<'_>>
    ensures ok { IfOk result (λ a. a ≡ record { rows = rows.entry; valid = Bits (replicate len false) }) }
    ensures err { OnlyOutOfMemory result }
{
    let bits = BitBuffer::repeat(alloc, false, len)?;
    let valid = ValidRows::Bits(bits);
    Ok(Argument { rows, valid })
}

/// Returns the rows of each of `columns`, whose types must not be nested. `Fault` if a row of one has no value.
pub(crate) fn arguments_of(alloc: Global, columns: &[Columnar]) -> VortexResult<Vec<Argument<'_>>>
    requires { any_nested (map columnar_tree columns.now) ≡ false }
    ensures ok { IfOk result (λ v. AllZip IsArgument columns.now v.items) }
    ensures err { IfErr result (AnyUnread columns.now) }
{
    let mut arguments = Vec::with_capacity(alloc, columns.len())?;
    for column in columns {
        match argument_of(alloc, column) {
            Ok(argument) => arguments.push(argument)?,
            Err(e) => return Err(e),
        }
    }
    Ok(arguments)
}
