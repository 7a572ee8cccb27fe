//! Casts of scalars, as in the original's `scalar` module.

ghost use Rattle.std.specs.Prelude.{◌≡◌, ◌↔◌, ◌⊎◌, ◌≤◌, IfOk, IfErr, IsErrOf, true, false, Some, None};
ghost use Rattle.vx_value.specs.View.{type_of, fields_of, value_of, cell_of, values_of};
ghost use Rattle.vx_value.specs.Values.{integer};
ghost use Rattle.vx_value.specs.IsOf.{is_of, all_of, are_of};
ghost use Rattle.vx_value.specs.Fits.{ListsFit};
ghost use Rattle.vx_value.specs.Cell as cell;
ghost use Rattle.vx_value.specs.Casts.{to_integer, rescaled, has_other_row, have_rows, has_cast, cast_value, other_cast, cast_all, cast_each};

use crate::scalar::in_range;
use crate::{
    ArgKind, DType, DecimalDType, DecimalValue, Field, PType, Rescaling, Scalar, ScalarValue,
    ScalarValues, VortexError, VortexResult, fits,
};
use std::alloc::Global;

impl Scalar {
    /// Returns the value as one of type `dtype`, by the first of these casts that accepts the two types:
    ///
    /// - to the same type, apart from nullability: the value itself;
    /// - from `Null` to any nullable type: null;
    /// - from an extension, or to one: the cast of what it is stored as;
    /// - from an integer type to an integer type: the same number;
    /// - from an integer type to a decimal type: the same number;
    /// - from a decimal type to a decimal type: the same number;
    /// - from `Utf8` to `Binary`: the bytes of the text;
    /// - from `Binary` to `Utf8`: the text that the bytes are;
    /// - from a list to a list, or between fixed-size lists of one size: each element by these casts;
    /// - from a struct to one with the same field names in the same order: each field by these casts.
    ///
    /// Null stays null, at each depth. Nothing is rounded.
    ///
    /// Returns `InvalidArgument` with `NoRow` exactly if there is no such cast. Returns `Fault` exactly if there is one and the
    /// value is null and `dtype` isn't nullable, or it isn't null and `dtype` can't hold it: an integer out of its range; a
    /// number with a digit other than 0 past its scale, or, written to its scale, with more digits than its precision; bytes
    /// that aren't UTF-8; a part that its type can't hold; a list with more elements than fit their type.
    pub fn cast(&self, alloc: Global, dtype: &DType) -> VortexResult<Scalar>
        ensures ok { IfOk result (λ s. (s.of_type ≡ type_of dtype.now)
            × (cast_value self.now.of_type (type_of dtype.now) self.now.value ≡ cell.value s.value)) }
        ensures no_row { IsErrOf result (VortexError.InvalidArgument ArgKind.NoRow) ↔ (has_cast self.now.of_type (type_of dtype.now) ≡ false) }
        ensures err { IfErr result
            (λ e. (e ≡ VortexError.OutOfMemory)
            ⊎ (e ≡ VortexError.InvalidArgument ArgKind.NoRow)
            ⊎ ((e ≡ VortexError.Fault)
            × (has_cast self.now.of_type (type_of dtype.now) ≡ true)
            × (cast_value self.now.of_type (type_of dtype.now) self.now.value ≡ cell.fault))) }
        ensures typed { is_of self.now.of_type self.now.value ≡ true }
        ensures fits { ListsFit self.now.of_type self.now.value }
    {
        if !has_cast(self.dtype(), dtype) {
            return Err(VortexError::InvalidArgument(ArgKind::NoRow));
        }
        let value = cast_value(alloc, self.entry(), self.dtype(), dtype)?;
        Ok(Scalar::new_unchecked(dtype.clone()?, value))
    }
}

/// Checks whether there is a cast from `from` to `to`. (own)
pub fn has_cast(from: &DType, to: &DType) -> bool
    ensures { result ≡ has_cast (type_of from.now) (type_of to.now) }
{
    from.eq_ignore_nullability(to) || has_other_row(from, to.bare())
}

/// Checks whether there is a cast between two types that differ.
#[cycle(rows)]
fn has_other_row(from: &DType, to: &DType) -> bool
    ensures { result ≡ has_other_row (type_of from.now) (type_of to.now) }
{
    match (from, to) {
        (DType::Null, _) => to.is_nullable(),
        (DType::Extension(source), _) => {
            source.storage.eq_ignore_nullability(to) || has_other_row(&source.storage, to)
        }
        (DType::Primitive(_, _), DType::Primitive(_, _)) => true,
        (DType::Primitive(_, _), DType::Decimal(_, _)) => true,
        (DType::Decimal(_, _), DType::Decimal(_, _)) => true,
        (DType::Utf8(_), DType::Binary(_)) => true,
        (DType::Binary(_), DType::Utf8(_)) => true,
        (DType::List(source, _), DType::List(target, _)) => has_row(source, target),
        (DType::FixedSizeList(source, size, _), DType::FixedSizeList(target, other, _)) => {
            *size == *other && has_row(source, target)
        }
        (DType::Struct(source, _), DType::Struct(target, _)) => {
            have_rows(&source.fields, &target.fields)
        }
        _ => false,
    }
}

#[cycle(rows)]
fn has_row(from: &DType, to: &DType) -> bool
    ensures { result ≡ has_cast (type_of from.now) (type_of to.now) }
{
    from.eq_ignore_nullability(to) || has_other_row(from, to.bare())
}

/// Checks whether there is a cast for each field, and the names are the same.
#[cycle(rows)]
#[tactic(auto, using(crate::proofs::CastPartsLemmas::rows_at, crate::proofs::CastPartsLemmas::rows_differ))]
fn have_rows(from: &[Field], to: &[Field]) -> bool
    ensures { result ≡ have_rows (fields_of from.now) (fields_of to.now) }
{
    if from.len() != to.len() {
        return false;
    }
    for i in 0..from.len() {
        if from[i].name.as_str() != to[i].name.as_str() || !has_row(&from[i].dtype, &to[i].dtype) {
            return false;
        }
    }
    true
}

/// Casts a value of type `from`. `None` is null.
#[cycle(casts)]
fn cast_value(
    alloc: Global,
    value: &Option<ScalarValue>,
    from: &DType,
    to: &DType,
) -> VortexResult<Option<ScalarValue>>
    requires { is_of (type_of from.now) (cell_of value.now) ≡ true }
    ensures ok { IfOk result (λ v. cast_value (type_of from.now) (type_of to.now) (cell_of value.now) ≡ cell.value (cell_of v)) }
    ensures err { IfErr result (λ e. (e ≡ VortexError.OutOfMemory)
        ⊎ ((e ≡ VortexError.Fault) × (cast_value (type_of from.now) (type_of to.now) (cell_of value.now) ≡ cell.fault))) }
{
    match value {
        None if to.is_nullable() => Ok(None),
        None => Err(VortexError::Fault),
        Some(value) => {
            let (source, target) = (from.bare(), to.bare());
            if source.eq_ignore_nullability(target) {
                Ok(Some(value.clone()?))
            } else {
                Ok(Some(other_cast(alloc, value, source, target)?))
            }
        }
    }
}

/// Casts a value between two types that differ and that aren't extensions.
#[cycle(casts)]
fn other_cast(
    alloc: Global,
    value: &ScalarValue,
    from: &DType,
    to: &DType,
) -> VortexResult<ScalarValue>
    requires { is_of (type_of from.now) (value_of value.now) ≡ true }
    ensures ok { IfOk result (λ v. other_cast (type_of from.now) (type_of to.now) (value_of value.now) ≡ cell.value (value_of v)) }
    ensures err { IfErr result (λ e. (e ≡ VortexError.OutOfMemory)
        ⊎ ((e ≡ VortexError.Fault) × (other_cast (type_of from.now) (type_of to.now) (value_of value.now) ≡ cell.fault))) }
{
    match (from, to, value) {
        (DType::List(source, _), DType::List(target, _), ScalarValue::List(values)) => {
            if !fits(target, values.len()) {
                return Err(VortexError::Fault);
            }
            Ok(ScalarValue::List(cast_all(alloc, &values.items, source, target)?))
        }
        (
            DType::FixedSizeList(source, _, _),
            DType::FixedSizeList(target, size, _),
            ScalarValue::List(values),
        ) => {
            if values.len() != *size as usize {
                return Err(VortexError::Fault);
            }
            Ok(ScalarValue::List(cast_all(alloc, &values.items, source, target)?))
        }
        (DType::Struct(source, _), DType::Struct(target, _), ScalarValue::Struct(values)) => Ok(
            ScalarValue::Struct(cast_each(alloc, &values.items, &source.fields, &target.fields)?),
        ),
        (DType::Primitive(_, _), DType::Primitive(ptype, _), ScalarValue::Integer(number)) => {
            to_integer(*ptype, *number)
        }
        (DType::Primitive(_, _), DType::Decimal(target, _), ScalarValue::Integer(number)) => {
            to_decimal(*target, *number, 0)
        }
        (DType::Decimal(_, _), DType::Decimal(target, _), ScalarValue::Decimal(number)) => {
            to_decimal(*target, number.unscaled, number.scale)
        }
        (DType::Utf8(_), DType::Binary(_), ScalarValue::Bytes(bytes)) => {
            Ok(ScalarValue::Bytes(bytes.clone()?))
        }
        (DType::Binary(_), DType::Utf8(_), ScalarValue::Bytes(bytes)) => {
            if bytes.as_str().is_none() {
                return Err(VortexError::Fault);
            }
            Ok(ScalarValue::Bytes(bytes.clone()?))
        }
        _ => Err(VortexError::Fault),
    }
}

/// Casts the elements of a list.
#[cycle(casts)]
fn cast_all(
    alloc: Global,
    values: &[Option<ScalarValue>],
    from: &DType,
    to: &DType,
) -> VortexResult<ScalarValues>
    requires { all_of (type_of from.now) (values_of values.now) ≡ true }
    ensures ok { IfOk result (λ vs. cast_all (type_of from.now) (type_of to.now) (values_of values.now) ≡ Some vs) }
    ensures err { IfErr result (λ e. (e ≡ VortexError.OutOfMemory)
        ⊎ ((e ≡ VortexError.Fault) × (cast_all (type_of from.now) (type_of to.now) (values_of values.now) ≡ None))) }
{
    let mut items = Vec::with_capacity(alloc, values.len())?;
    for value in values {
        items.push(cast_value(alloc, value, from, to)?)?;
    }
    ScalarValues::new(alloc, items)
}

/// Casts the fields of a struct.
#[cycle(casts)]
fn cast_each(
    alloc: Global,
    values: &[Option<ScalarValue>],
    from: &[Field],
    to: &[Field],
) -> VortexResult<ScalarValues>
    requires { are_of (fields_of from.now) (values_of values.now) ≡ true }
    ensures ok { IfOk result (λ vs. cast_each (fields_of from.now) (fields_of to.now) (values_of values.now) ≡ Some vs) }
    ensures err { IfErr result (λ e. (e ≡ VortexError.OutOfMemory)
        ⊎ ((e ≡ VortexError.Fault) × (cast_each (fields_of from.now) (fields_of to.now) (values_of values.now) ≡ None))) }
{
    if from.len() != values.len() || to.len() != values.len() {
        return Err(VortexError::Fault);
    }
    let mut items = Vec::with_capacity(alloc, values.len())?;
    for i in 0..values.len() {
        items.push(cast_value(alloc, &values[i], &from[i].dtype, &to[i].dtype)?)?;
    }
    ScalarValues::new(alloc, items)
}

/// Casts an integer to an integer type.
fn to_integer(ptype: PType, number: i128) -> VortexResult<ScalarValue>
    ensures ok { IfOk result (λ v. to_integer ptype (integer number) ≡ cell.value (value_of v)) }
    ensures err { IfErr result (λ e. (e ≡ VortexError.Fault) × (to_integer ptype (integer number) ≡ cell.fault)) }
{
    if in_range(ptype, number) {
        Ok(ScalarValue::Integer(number))
    } else {
        Err(VortexError::Fault)
    }
}

/// Casts `number`, of scale `scale`, to the decimal type `dtype`.
fn to_decimal(dtype: DecimalDType, number: i128, scale: u8) -> VortexResult<ScalarValue>
    requires { scale ≤ 38 }
    ensures ok { IfOk result (λ v. rescaled dtype.precision dtype.scale number scale ≡ cell.value (value_of v)) }
    ensures err { IfErr result (λ e. (e ≡ VortexError.Fault) × (rescaled dtype.precision dtype.scale number scale ≡ cell.fault)) }
{
    match Rescaling::new(dtype, scale).rescale(number) {
        Some(unscaled) => Ok(ScalarValue::Decimal(DecimalValue {
            unscaled,
            scale: dtype.scale(),
        })),
        None => Err(VortexError::Fault),
    }
}
