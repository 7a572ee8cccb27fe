//! Nested scalars made of their parts, and taken apart.

ghost use Rattle.std.specs.Prelude.{◌≡◌, ◌<◌, List, ℕ, IfOk, OnOk, true, None, Some, length, slice_get};
ghost use Rattle.std.specs.List.{All};
ghost use Rattle.vx_value.specs.Errors.{OnlyOutOfMemory};
ghost use Rattle.vx_value.specs.Types as type;
ghost use Rattle.vx_value.specs.View.{type_of, fields_of, cell_of, values_of};
ghost use Rattle.vx_value.specs.Values.{fields, null};
ghost use Rattle.vx_value.specs.IsOf.{is_of, are_of};
ghost use Rattle.vx_value.specs.Fits.{named_overflow, ListsFit};
ghost use Rattle.vx_value.specs.ScalarParts.{values_in, IsSound, HaveFields, IsStruct, IsExtension, storage_type, fields_by, fields_in};

use crate::{DType, Field, Scalar, ScalarValue, ScalarValues, VortexResult};
use std::alloc::Global;

impl Scalar {
    /// Makes the struct of type `dtype` with these fields, whose values aren't copied. Fails only with `OutOfMemory`. (own)
    #[tactic(auto, using(crate::proofs::ScalarPartsLemmas::struct_typed, crate::proofs::ScalarPartsLemmas::struct_fits))]
    pub fn from_fields(alloc: Global, dtype: DType, parts: Vec<Scalar>) -> VortexResult<Scalar>
        requires { HaveFields (type_of dtype) parts.items }
        ensures ok { IfOk result (λ s. s ≡ record { of_type = type_of dtype; value = fields (values_in parts.items) }) }
        ensures err { OnlyOutOfMemory result }
    {
        let values = ScalarValues::new(alloc, into_values(alloc, parts)?)?;
        Ok(Scalar::new_unchecked(dtype, Some(ScalarValue::Struct(values))))
    }

    /// Makes the value of extension type `dtype` that is stored as `storage`, without allocating. (own)
    pub fn from_storage(dtype: DType, storage: Scalar) -> Scalar
        requires { (id : List ℕ) × (type_of dtype ≡ type.extension id storage.of_type) }
        ensures { result ≡ record { of_type = type_of dtype; value = storage.value } }
    {
        Scalar::new_unchecked(dtype, storage.into_value())
    }

    /// Returns the value that a value of an extension type is stored as. Fails only with `OutOfMemory`. (own)
    pub fn storage(&self) -> VortexResult<Scalar>
        requires { IsExtension self.now.of_type }
        ensures ok { IfOk result (λ s. s ≡ record { of_type = storage_type self.now.of_type; value = self.now.value }) }
        ensures err { OnlyOutOfMemory result }
    {
        match self.dtype() {
            DType::Extension(extension) => copied(extension.storage(), self.entry()),
            _ => unreachable!(),
        }
    }

    /// Returns the fields of a struct, each the default value of its type if the struct is null. Fails only with
    /// `OutOfMemory`. (own)
    pub fn fields(&self, alloc: Global) -> VortexResult<Vec<Scalar>>
        requires { IsStruct self.now.of_type }
        ensures ok { IfOk result (λ ss. ss.items ≡ fields_in self.now) }
        ensures err { OnlyOutOfMemory result }
    {
        match (self.dtype(), self.entry()) {
            (DType::Struct(fields, _), Some(ScalarValue::Struct(values))) => {
                present_fields(alloc, fields.as_slice(), values.as_slice())
            }
            (DType::Struct(fields, _), None) => default_fields(alloc, fields.as_slice()),
            _ => unreachable!(),
        }
    }

    /// Returns field `index` of a struct, which must have it; the default value of its type if the struct is null. Fails only
    /// with `OutOfMemory`. (own)
    pub fn field(&self, alloc: Global, index: usize) -> VortexResult<Scalar>
        requires structs { IsStruct self.now.of_type }
        requires index { index < length (fields_in self.now) }
        ensures ok { IfOk result (λ s. slice_get (fields_in self.now) index ≡ Some s) }
        ensures err { OnlyOutOfMemory result }
    {
        match (self.dtype(), self.entry()) {
            (DType::Struct(fields, _), Some(ScalarValue::Struct(values))) => {
                present_field(fields.as_slice(), values.as_slice(), index)
            }
            (DType::Struct(fields, _), None) => {
                let dtype = fields.as_slice()[index].dtype.clone()?;
                Scalar::default_value(alloc, dtype)
            }
            _ => unreachable!(),
        }
    }
}

/// Returns the values of `parts`, without copying them.
fn into_values(alloc: Global, parts: Vec<Scalar>) -> VortexResult<Vec<Option<ScalarValue>>>
    ensures ok { IfOk result (λ vs. values_of vs.items ≡ values_in parts.items) }
    ensures sound { OnOk result (All IsSound parts.items) }
    ensures err { OnlyOutOfMemory result }
{
    let mut values = Vec::with_capacity(alloc, parts.len())?;
    for part in parts {
        values.push(part.into_value())?;
    }
    Ok(values)
}

/// Returns the scalar of type `dtype` whose value is `value`. Nested parts are shared.
fn copied(dtype: &DType, value: &Option<ScalarValue>) -> VortexResult<Scalar>
    requires typed { is_of (type_of dtype.now) (cell_of value.now) ≡ true }
    requires fits { ListsFit (type_of dtype.now) (cell_of value.now) }
    ensures ok { IfOk result (λ s. s ≡ record { of_type = type_of dtype.now; value = cell_of value.now }) }
    ensures err { OnlyOutOfMemory result }
{
    let (dtype, value) = (dtype.clone()?, value.clone()?);
    Ok(Scalar::new_unchecked(dtype, value))
}

/// Returns the scalars of `types` with these values.
fn present_fields(
    alloc: Global,
    types: &[Field],
    values: &[Option<ScalarValue>],
) -> VortexResult<Vec<Scalar>>
    requires typed { are_of (fields_of types.now) (values_of values.now) ≡ true }
    requires fit { named_overflow (fields_of types.now) (values_of values.now) ≡ None }
    ensures ok { IfOk result (λ ss. ss.items ≡ fields_by (fields_of types.now) (fields (values_of values.now))) }
    ensures err { OnlyOutOfMemory result }
{
    let mut scalars = Vec::with_capacity(alloc, types.len())?;
    for i in 0..types.len() {
        scalars.push(copied(&types[i].dtype, &values[i])?)?;
    }
    Ok(scalars)
}

/// Returns the scalar of type `index` among `types` with this one of the values.
fn present_field(
    types: &[Field],
    values: &[Option<ScalarValue>],
    index: usize,
) -> VortexResult<Scalar>
    requires typed { are_of (fields_of types.now) (values_of values.now) ≡ true }
    requires fit { named_overflow (fields_of types.now) (values_of values.now) ≡ None }
    requires index { index < length types.now }
    ensures ok { IfOk result (λ s. slice_get (fields_by (fields_of types.now) (fields (values_of values.now))) index ≡ Some s) }
    ensures err { OnlyOutOfMemory result }
{
    copied(&types[index].dtype, &values[index])
}

/// Returns the default values of `types`.
fn default_fields(alloc: Global, types: &[Field]) -> VortexResult<Vec<Scalar>>
    ensures ok { IfOk result (λ ss. ss.items ≡ fields_by (fields_of types.now) null) }
    ensures err { OnlyOutOfMemory result }
{
    let mut scalars = Vec::with_capacity(alloc, types.len())?;
    for field in types {
        let dtype = field.dtype.clone()?;
        scalars.push(Scalar::default_value(alloc, dtype)?)?;
    }
    Ok(scalars)
}
