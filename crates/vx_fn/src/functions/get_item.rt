//! The fields of structs.

ghost use Rattle.std.specs.Prelude.{◌≡◌, ◌⊎◌, IfOk, IfErr, IsSome, Some, ◌∷◌, [], option_map};
ghost use Rattle.vx_value.specs.Errors.{OnlyOutOfMemory};
ghost use Rattle.vx_value.specs.View.{type_of, cell_of};
ghost use Rattle.vx_value.specs.Cell.{value};
ghost use Rattle.vx_fn.specs.Meanings.{null_through};
ghost use Rattle.vx_fn.specs.GetItem.{get_item, item_of};

use crate::argument_names::ArgumentNames;
use crate::row_function::RowFunction;
use std::alloc::Global;
use vx_value::{DType, Id, Name, Scalar, ScalarValue, VortexResult};

impl RowFunction for Name {
    ghost meaning = { get_item };

    fn signature(&self) -> (Id, ArgumentNames<'_>) {
        (Id::GetItem, ArgumentNames::Fixed(&["input"]))
    }

    fn return_dtype(&self, alloc: Global, arguments: &[DType]) -> VortexResult<Option<DType>> {
        match arguments {
            [input] => field_type(alloc, self, input),
            _ => Ok(None),
        }
    }

    fn apply(&self, alloc: Global, arguments: &[Scalar]) -> VortexResult<Scalar> {
        match arguments {
            [input] => field(alloc, self, input),
            _ => unreachable!(),
        }
    }
}

/// Returns the type of the field `name` of a struct of type `input`, nullable if the struct is, or `None` if there is no such
/// field. Fails only with `OutOfMemory`.
fn field_type(alloc: Global, name: &Name, input: &DType) -> VortexResult<Option<DType>>
    ensures ok { IfOk result (λ t. option_map type_of t ≡ (get_item name.now).types (type_of input.now ∷ [])) }
    ensures err { OnlyOutOfMemory result }
{
    let DType::Struct(fields, nullability) = input else {
        return Ok(None);
    };
    match fields.field(name.as_str()) {
        Some(dtype) => {
            let nullability = nullability.union(dtype.nullability());
            Ok(Some(dtype.with_nullability(alloc, nullability)?))
        }
        None => Ok(None),
    }
}

/// Returns the field `name` of `input`, a struct that has it; null if the struct is null. Fails only with `OutOfMemory`.
fn field(alloc: Global, name: &Name, input: &Scalar) -> VortexResult<Scalar>
    requires { IsSome ((get_item name.now).types (input.now.of_type ∷ [])) }
    ensures typed { IfOk result (λ s. (get_item name.now).types (input.now.of_type ∷ []) ≡ Some s.of_type) }
    ensures value { IfOk result (λ s. (get_item name.now).value (input.now.of_type ∷ []) s.of_type (input.now.value ∷ [])
        ≡ value s.value) }
    ensures err { OnlyOutOfMemory result }
{
    let Some(dtype) = field_type(alloc, name, input.dtype())? else {
        unreachable!();
    };
    Ok(Scalar::new_unchecked(dtype, field_value(name, input)?))
}

/// Returns the value of the field `name` of `input`, a struct that has it; `None` is null. Fails only with `OutOfMemory`.
fn field_value(name: &Name, input: &Scalar) -> VortexResult<Option<ScalarValue>>
    requires { IsSome ((get_item name.now).types (input.now.of_type ∷ [])) }
    ensures ok { IfOk result (λ v. null_through input.now.value (item_of name.now input.now.of_type input.now.value)
        ≡ value (cell_of v)) }
    ensures err { OnlyOutOfMemory result }
{
    match (input.dtype(), input.value()) {
        (DType::Struct(fields, _), Some(ScalarValue::Struct(values))) => {
            match fields.find(name.as_str()) {
                Some(place) => Ok(values.as_slice()[place].clone()?),
                None => unreachable!(),
            }
        }
        (_, None) => Ok(None),
        _ => unreachable!(),
    }
}
