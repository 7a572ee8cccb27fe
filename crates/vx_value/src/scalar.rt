//! Scalars, as in the original's `scalar` module.

ghost use Rattle.std.specs.Prelude.{◌≡◌, ◌↔◌, ◌⊎◌, IfOk, IfErr, OnOk, true, false, option_copied, option_map};
ghost use Rattle.vx_value.specs.Errors.{OnlyOutOfMemory};
ghost use Rattle.vx_value.specs.View.{type_of, value_of, cell_of, cell_seen};
ghost use Rattle.vx_value.specs.Values.{Value, null, boolean, integer, decimal};
ghost use Rattle.vx_value.specs.Types.{nullability_of, is_nullable};
ghost use Rattle.vx_value.specs.Nullabilities.{with_nullability};
ghost use Rattle.vx_value.specs.Defaults.{zero_of, default_of};
ghost use Rattle.vx_value.specs.IsOf.{is_of, in_range, is_null};
ghost use Rattle.vx_value.specs.Fits.{ListsFit, list_overflow};
ghost use Rattle.vx_value.specs.Errors.{IsOverflow};
ghost use Rattle.vx_value.specs.Parts.{boolean_in, integer_in, decimal_in, bytes_in, text_in};
ghost use Rattle.vx_value.specs.ScalarKinds.{scalar_of, IsStored};
ghost use Rattle.vx_value.specs.Types as type;
ghost use Rattle.vx_value.specs.Decimals.{has_digits};

use crate::fitting::list_overflow;
use crate::typed::is_of;
use crate::zero::zero_of;
use crate::{
    ArgKind, ByteBuffer, DType, DecimalDType, DecimalValue, Nullability, PType, ScalarValues,
    Storage, TypeRef, ValueRef, VortexError, VortexResult,
};
use std::alloc::{AllocError, Global};
use std::marker::Model;

/// A value that isn't null. `Scalar` holds its type.
#[cycle(value)]
#[derive(Debug, Drop)]
pub enum ScalarValue {
    Bool(bool),
    /// An integer of any of the integer types.
    Integer(i128),
    Decimal(DecimalValue),
    /// The bytes of a `Utf8` or of a `Binary` value, shared.
    Bytes(ByteBuffer),
    /// The elements of a list or of a fixed-size list, or the entries of a map.
    List(ScalarValues),
    /// The fields of a struct, or the key and the value of a map's entry.
    Struct(ScalarValues),
    /// The tag of a union's variant, and a value of its type.
    Union(u8, ValueRef),
    /// A type, and a value of it.
    Variant(TypeRef, ValueRef),
}

impl Clone for ScalarValue {
    ghost is_clone = { λ a b. b ≡ a };

    /// Returns the same value. Bytes and nested values are shared.
    fn clone(&self) -> Result<ScalarValue, AllocError> {
        Ok(match self {
            ScalarValue::Bool(boolean) => ScalarValue::Bool(*boolean),
            ScalarValue::Integer(number) => ScalarValue::Integer(*number),
            ScalarValue::Decimal(number) => ScalarValue::Decimal(*number),
            ScalarValue::Bytes(bytes) => ScalarValue::Bytes(bytes.clone()?),
            ScalarValue::List(values) => ScalarValue::List(values.clone()?),
            ScalarValue::Struct(values) => ScalarValue::Struct(values.clone()?),
            ScalarValue::Union(tag, value) => ScalarValue::Union(*tag, value.clone()?),
            ScalarValue::Variant(dtype, value) => {
                ScalarValue::Variant(dtype.clone()?, value.clone()?)
            }
        })
    }
}

/// The type and the value of a scalar, together, by how the type's values are stored. (own)
#[derive(Clone, Copy)]
pub enum ScalarKind<'a> {
    /// The null of a nullable type.
    Null(&'a DType),
    /// A boolean of this type.
    Bool(bool, &'a DType),
    /// An integer of this type, whose values are integers in the range of the `PType`.
    Integer(i128, PType, &'a DType),
    /// A decimal of this type.
    Decimal(DecimalValue, &'a DType),
    /// A text of this type: its bytes, which are UTF-8.
    Utf8(&'a ByteBuffer, &'a DType),
    /// Bytes of this type.
    Binary(&'a ByteBuffer, &'a DType),
    /// A value of this nested type.
    Nested(&'a ScalarValue, &'a DType),
}

/// A value with its type. The value may be null if the type is nullable.
#[derive(Debug, Drop)]
pub struct Scalar {
    dtype: DType,
    value: Option<ScalarValue>,
}

impl Model for Scalar {
    ghost use Rattle.std.specs.Prelude.{◌≡◌, true};
    ghost use Rattle.vx_value.specs.Typed.{Typed, coded_typed};
    ghost use Rattle.vx_value.specs.View.{type_of, cell_of};
    ghost use Rattle.vx_value.specs.IsOf.{is_of};
    ghost use Rattle.vx_value.specs.Fits.{ListsFit};

    ghost Value = { Typed };

    ghost coded = { coded_typed };

    ghost view = { λ s. record { of_type = type_of s.dtype; value = cell_of s.value } };

    ghost invariant = { λ s. (is_of (type_of s.dtype) (cell_of s.value) ≡ true)
        × ListsFit (type_of s.dtype) (cell_of s.value) };
}

impl Clone for Scalar {
    ghost is_clone = { λ a b. b ≡ a };

    fn clone(&self) -> Result<Scalar, AllocError> {
        let (dtype, value) = (self.dtype().clone()?, self.entry().clone()?);
        Ok(Scalar::new_unchecked(dtype, value))
    }
}

impl Scalar {
    /// Makes a scalar of type `dtype` from `value`, without allocating. `None` is null.
    ///
    /// Returns `InvalidArgument` with `BadValue` exactly if `value` isn't of type `dtype`: it is of another kind,
    /// out of the type's range, or null and the type isn't nullable, or one of its parts is so. Returns `TooLong` exactly if it is
    /// of the type, and a list in it has more elements than fit their type.
    pub fn try_new(dtype: DType, value: Option<ScalarValue>) -> VortexResult<Scalar>
        ensures ok { IfOk result (λ s. (s.of_type ≡ type_of dtype) × (s.value ≡ cell_of value)) }
        ensures valid { OnOk result ((is_of (type_of dtype) (cell_of value) ≡ true) × ListsFit (type_of dtype) (cell_of value)) }
        ensures refused { IfErr result (λ e. ((e ≡ VortexError.InvalidArgument ArgKind.BadValue) × (is_of (type_of dtype) (cell_of value) ≡ false))
            ⊎ ((is_of (type_of dtype) (cell_of value) ≡ true) × IsOverflow e (list_overflow (type_of dtype) (cell_of value)))) }
    {
        if !is_of(&value, &dtype) {
            return Err(VortexError::InvalidArgument(ArgKind::BadValue));
        }
        match list_overflow(&value, &dtype) {
            None => Ok(Scalar { dtype, value }),
            Some((len, factor)) => Err(VortexError::TooLong { len, factor }),
        }
    }

    /// Returns a boolean.
    pub fn bool(value: bool, nullability: Nullability) -> Scalar
        ensures { result ≡ record { of_type = type.bool nullability; value = boolean value } }
    {
        Scalar {
            dtype: DType::Bool(nullability),
            value: Some(ScalarValue::Bool(value)),
        }
    }

    /// Returns an integer, which must be in the range of `ptype`.
    pub fn primitive(value: i128, ptype: PType, nullability: Nullability) -> Scalar
        requires { in_range ptype value ≡ true }
        ensures { result ≡ record { of_type = type.primitive ptype nullability; value = integer value } }
    {
        Scalar {
            dtype: DType::Primitive(ptype, nullability),
            value: Some(ScalarValue::Integer(value)),
        }
    }

    /// Returns the decimal of type `dtype` whose number without its point is `unscaled`, which must have at most as many digits
    /// as the precision.
    pub fn decimal(unscaled: i128, dtype: DecimalDType, nullability: Nullability) -> Scalar
        requires { has_digits dtype.precision unscaled ≡ true }
        ensures { result ≡ record { of_type = type.decimal dtype.precision dtype.scale nullability; value = decimal unscaled dtype.scale } }
    {
        let scale = dtype.scale();
        Scalar {
            dtype: DType::Decimal(dtype, nullability),
            value: Some(ScalarValue::Decimal(DecimalValue { unscaled, scale })),
        }
    }

    /// Returns the null of type `dtype`, which must be nullable.
    pub fn null(dtype: DType) -> Scalar
        requires { is_nullable (nullability_of (type_of dtype)) ≡ true }
        ensures { result ≡ record { of_type = type_of dtype; value = null } }
    {
        Scalar { dtype, value: None }
    }

    /// Returns the zero value of type `dtype`: `false`, 0, no bytes, or no elements; as many zero values as a fixed-size list has;
    /// the zero value of each field; that of a union's first variant; for type `Variant` the null of type `Null`. Null if the
    /// type is `Null`. Fails only with `OutOfMemory`.
    #[tactic(auto, using(crate::proofs::DefaultsLemmas::zero_fits))]
    pub fn zero_value(alloc: Global, dtype: DType) -> VortexResult<Scalar>
        ensures ok { IfOk result (λ s. s ≡ record { of_type = type_of dtype; value = zero_of (type_of dtype) }) }
        ensures err { OnlyOutOfMemory result }
    {
        let value = zero_of(alloc, &dtype)?;
        Ok(Scalar { dtype, value })
    }

    /// Returns the default value of type `dtype`: null if the type is nullable, else its zero value. Fails only with
    /// `OutOfMemory`.
    pub fn default_value(alloc: Global, dtype: DType) -> VortexResult<Scalar>
        ensures ok { IfOk result (λ s. s ≡ record { of_type = type_of dtype; value = default_of (type_of dtype) }) }
        ensures err { OnlyOutOfMemory result }
    {
        if dtype.is_nullable() {
            Ok(Scalar::null(dtype))
        } else {
            Scalar::zero_value(alloc, dtype)
        }
    }

    /// Returns the type of the value.
    pub fn dtype(&self) -> &DType
        ensures dtype { type_of result.now ≡ self.now.of_type }
        ensures typed { is_of self.now.of_type self.now.value ≡ true }
        ensures fits { ListsFit self.now.of_type self.now.value }
    {
        &self.dtype
    }

    /// Returns the value, or `None` if it is null.
    pub(crate) fn entry(&self) -> &Option<ScalarValue>
        ensures value { cell_of result.now ≡ self.now.value }
        ensures typed { is_of self.now.of_type self.now.value ≡ true }
        ensures fits { ListsFit self.now.of_type self.now.value }
    {
        &self.value
    }

    /// Returns the value, or `None` if it is null, without copying it.
    pub(crate) fn into_value(self) -> Option<ScalarValue>
        ensures value { cell_of result ≡ self.value }
        ensures typed { is_of self.of_type self.value ≡ true }
        ensures fits { ListsFit self.of_type self.value }
    {
        self.value
    }

    /// Returns the value, or `None` if it is null.
    pub fn value(&self) -> Option<&ScalarValue>
        ensures value { cell_seen result ≡ self.now.value }
        ensures typed { is_of self.now.of_type self.now.value ≡ true }
        ensures fits { ListsFit self.now.of_type self.now.value }
    {
        self.value.as_ref()
    }

    /// Returns the type and the value together, so that a `match` on both has one arm per storage. (own)
    pub fn kind(&self) -> ScalarKind<'_>
        ensures whole { scalar_of result ≡ self.now }
        ensures typed { is_of self.now.of_type self.now.value ≡ true }
        ensures stored { IsStored result }
    {
        match &self.value {
            None => ScalarKind::Null(&self.dtype),
            Some(value) => kind_of(&self.dtype, value),
        }
    }

    /// Returns the boolean, or `None` if the value is null or of another kind.
    pub fn as_bool(&self) -> Option<bool>
        ensures { result ≡ boolean_in self.now.value }
    {
        match &self.value {
            Some(ScalarValue::Bool(boolean)) => Some(*boolean),
            _ => None,
        }
    }

    /// Returns the integer, or `None` if the value is null or of another kind.
    pub fn as_integer(&self) -> Option<i128>
        ensures { result ≡ integer_in self.now.value }
    {
        match &self.value {
            Some(ScalarValue::Integer(number)) => Some(*number),
            _ => None,
        }
    }

    /// Returns the decimal, or `None` if the value is null or of another kind.
    pub fn as_decimal(&self) -> Option<DecimalValue>
        ensures { option_map (λ d. (d.unscaled, d.scale)) result ≡ decimal_in self.now.value }
    {
        match &self.value {
            Some(ScalarValue::Decimal(decimal)) => Some(*decimal),
            _ => None,
        }
    }

    /// Returns the bytes of a text or of a binary value, or `None` if the value is null or of another kind.
    pub fn as_bytes(&self) -> Option<&[u8]>
        ensures { option_map (λ s. s.now) result ≡ bytes_in self.now.value }
    {
        match &self.value {
            Some(ScalarValue::Bytes(bytes)) => Some(bytes.as_slice()),
            _ => None,
        }
    }

    /// Returns the text, or `None` if the value is null or isn't of type `Utf8`.
    pub fn as_utf8(&self) -> Option<&str>
        ensures { option_map (λ s. s.now) result ≡ text_in self.now }
    {
        match self.kind() {
            ScalarKind::Utf8(bytes, _) => bytes.as_str(),
            _ => None,
        }
    }

    /// Checks whether the value is null.
    pub fn is_null(&self) -> bool
        ensures { result ≡ is_null self.now.value }
    {
        self.value.is_none()
    }

    /// Returns the same value of the nullable type. Fails only with `OutOfMemory`.
    #[tactic(auto, using(crate::proofs::NullabilitiesLemmas::nullable_typed, crate::proofs::NullabilitiesLemmas::nullable_fits))]
    pub fn into_nullable(self, alloc: Global) -> VortexResult<Scalar>
        ensures ok { IfOk result (λ s. s ≡ record { of_type = with_nullability Nullability.Nullable self.of_type; value = self.value }) }
        ensures err { OnlyOutOfMemory result }
    {
        let Scalar { dtype, value } = self;
        let dtype = dtype.as_nullable(alloc)?;
        Ok(Scalar { dtype, value })
    }

    /// Makes a scalar of type `dtype` from `value`, which must be of that type, without checking it; a list in it must fit. `None` is null. (own)
    pub fn new_unchecked(dtype: DType, value: Option<ScalarValue>) -> Scalar
        requires typed { is_of (type_of dtype) (cell_of value) ≡ true }
        requires fits { ListsFit (type_of dtype) (cell_of value) }
        ensures { result ≡ record { of_type = type_of dtype; value = cell_of value } }
    {
        Scalar { dtype, value }
    }
}

/// Returns `value`, of type `dtype`, by its storage.
#[inline]
fn kind_of<'a>(dtype: &'a DType, value: &'a ScalarValue) -> ScalarKind<'a>
    requires { is_of (type_of dtype.now) (value_of value.now) ≡ true }
    ensures whole { scalar_of result ≡ record { of_type = type_of dtype.now; value = value_of value.now } }
    ensures stored { IsStored result }
{
    match (dtype.storage(), value) {
        (Storage::Nested, _) => ScalarKind::Nested(value, dtype),
        (Storage::Bits, ScalarValue::Bool(value)) => ScalarKind::Bool(*value, dtype),
        (Storage::Integers(ptype), ScalarValue::Integer(value)) => {
            ScalarKind::Integer(*value, ptype, dtype)
        }
        (Storage::Decimals { .. }, ScalarValue::Decimal(value)) => {
            ScalarKind::Decimal(*value, dtype)
        }
        (Storage::Text, ScalarValue::Bytes(bytes)) => ScalarKind::Utf8(bytes, dtype),
        (Storage::Bytes, ScalarValue::Bytes(bytes)) => ScalarKind::Binary(bytes, dtype),
        _ => unreachable!(),
    }
}

/// Checks whether `number` is in the range of `ptype`.
pub(crate) fn in_range(ptype: PType, number: i128) -> bool
    ensures { result ≡ in_range ptype number }
{
    match ptype {
        PType::U8 => 0 <= number && number < 256,
        PType::U16 => 0 <= number && number < 65536,
        PType::U32 => 0 <= number && number < 4294967296,
        PType::U64 => 0 <= number && number < 18446744073709551616,
        PType::I8 => -128 <= number && number < 128,
        PType::I16 => -32768 <= number && number < 32768,
        PType::I32 => -2147483648 <= number && number < 2147483648,
        PType::I64 => -9223372036854775808 <= number && number < 9223372036854775808,
    }
}
