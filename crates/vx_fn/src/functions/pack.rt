//! Structs of their fields.

ghost use Rattle.std.specs.Prelude.{◌≡◌, ◌⊎◌, map, IfOk, IfErr, OnOk, IsSome, Some, option_map};
ghost use Rattle.vx_value.specs.Errors.{OnlyOutOfMemory};
ghost use Rattle.vx_value.specs.View.{type_of, fields_of};
ghost use Rattle.vx_value.specs.Cell.{value};
ghost use Rattle.vx_fn.specs.Pack.{pack, struct_of, in_order, AreTyped};

use crate::argument_names::ArgumentNames;
use crate::retyped::value_of;
use crate::row_function::RowFunction;
use std::alloc::Global;
use vx_value::{
    DType, Field, FieldNames, Id, Nullability, Scalar, ScalarValue, ScalarValues, StructFields,
    VortexError, VortexResult,
};

/// The names of the fields that `Pack` gives a struct, and the nullability of its type. The struct itself is never null.
#[derive(Clone, Debug, PartialEq, Eq, Hash, Drop)]
pub struct PackOptions {
    /// A name for each argument.
    pub names: FieldNames,
    /// The nullability of the result's type.
    pub nullability: Nullability,
}

impl RowFunction for PackOptions {
    ghost meaning = { pack };

    fn signature(&self) -> (Id, ArgumentNames<'_>) {
        (Id::Pack, ArgumentNames::Own(&self.names))
    }

    fn return_dtype(&self, alloc: Global, arguments: &[DType]) -> VortexResult<Option<DType>> {
        pack_type(alloc, self, arguments)
    }

    fn apply(&self, alloc: Global, arguments: &[Scalar]) -> VortexResult<Scalar> {
        let types = types_of(alloc, arguments)?;
        let Some(dtype) = pack_type(alloc, self, types.as_slice())? else {
            unreachable!();
        };
        let values = values_of(alloc, arguments)?;
        Ok(Scalar::new_unchecked(dtype, Some(ScalarValue::Struct(values))))
    }
}

/// Returns the type of a struct with fields of these types, or `None` if there isn't one name for each, or if two names are the
/// same. Fails only with `OutOfMemory`.
fn pack_type(alloc: Global, options: &PackOptions, types: &[DType]) -> VortexResult<Option<DType>>
    ensures ok { IfOk result (λ t. option_map type_of t ≡ (pack options.now).types (map type_of types.now)) }
    ensures err { OnlyOutOfMemory result }
{
    let names = options.names.as_slice();
    if types.len() != names.len() {
        return Ok(None);
    }
    let mut fields = Vec::with_capacity(alloc, types.len())?;
    for i in 0..types.len() {
        fields.push(Field {
            name: names[i].clone()?,
            dtype: types[i].clone()?,
        })?;
    }
    struct_type(alloc, fields, options.nullability)
}

/// Returns the type of a struct with these fields, or `None` if two have one name. Fails only with `OutOfMemory`.
fn struct_type(
    alloc: Global,
    fields: Vec<Field>,
    nullability: Nullability,
) -> VortexResult<Option<DType>>
    ensures ok { IfOk result (λ t. option_map type_of t ≡ struct_of nullability (fields_of fields.items)) }
    ensures err { OnlyOutOfMemory result }
{
    match StructFields::try_new(alloc, fields) {
        Ok(fields) => Ok(Some(DType::Struct(fields, nullability))),
        Err(VortexError::InvalidArgument(_)) => Ok(None),
        Err(error) => Err(error),
    }
}

/// Returns the types of `arguments`. Fails only with `OutOfMemory`.
#[tactic(auto, using(crate::proofs::PackLemmas::typed_step))]
fn types_of(alloc: Global, arguments: &[Scalar]) -> VortexResult<Vec<DType>>
    ensures ok { IfOk result (λ types. map type_of types.items ≡ map (λ s. s.of_type) arguments.now) }
    ensures typed { OnOk result (AreTyped arguments.now) }
    ensures err { OnlyOutOfMemory result }
{
    let mut types = Vec::with_capacity(alloc, arguments.len())?;
    for argument in arguments {
        types.push(argument.dtype().clone()?)?;
    }
    Ok(types)
}

/// Returns the values of `arguments`. Fails only with `OutOfMemory`.
fn values_of(alloc: Global, arguments: &[Scalar]) -> VortexResult<ScalarValues>
    ensures ok { IfOk result (λ vs. vs ≡ in_order (map (λ s. s.value) arguments.now)) }
    ensures err { OnlyOutOfMemory result }
{
    let mut values = Vec::with_capacity(alloc, arguments.len())?;
    for argument in arguments {
        values.push(value_of(argument)?)?;
    }
    ScalarValues::new(alloc, values)
}
