//! The rule of a cast over a column of structs.

ghost use Rattle.std.specs.Prelude.{◌≡◌, IfOk, true};
ghost use Rattle.vx_value.specs.View.{type_of};
ghost use Rattle.vx_value.specs.declared.dtype.Nullability.{Nullability};
ghost use Rattle.vx_value.specs.declared.dtype.DType.TheVariants as dtype_of;
ghost use Rattle.vx_fn.specs.declared.function.ScalarFnRef.TheVariants as fn_of;
ghost use Rattle.vx_value.specs.Casts.{has_cast};
ghost use Rattle.vx_value.specs.Supported.{has_columns};
ghost use Rattle.vx_value.specs.Errors.{OnlyOutOfMemory};
ghost use Rattle.vx_tree.specs.Tree.{dtype, len, datum, is_struct};
ghost use Rattle.vx_tree.specs.Slots.{HasSlot};
ghost use Rattle.vx_rule.specs.Tags.{applies};
ghost use Rattle.vx_rule.specs.Builtins.{IsCastTo, is_struct_cast, BuiltinAnswers};
ghost use Rattle.vx_rule.specs.StructCasts.{AreFieldsCast, AreCastable, IsCastable, IsSlotCast};
ghost use Rattle.vx_rule.specs.declared.builtins.builtin.BuiltinKind.TheVariants.{StructCast};

use crate::nodes::{function_parts, structs_node};
use crate::raw_node::RawNode;
use std::alloc::Global;
use vx_fn::ScalarFnRef;
use vx_tree::{Array, ArrayParts, ArrayRef, Encoding, IntoArray, ScalarFn, ScalarFnData, Struct};
use vx_value::{DType, Field, StructFields, VortexResult};

/// Returns the column of the casts of the fields of `child`, which must be in `slot` of `parent`, if it is a column of structs without a
/// validity that `parent` casts to a struct type. `None` exactly if not. Fails only with `OutOfMemory`.
#[tactic(auto, using(crate::proofs::StructCastsLemmas::casts_quiet))]
pub(crate) fn answer(
    alloc: Global,
    child: &ArrayRef,
    parent: &ArrayRef,
    slot: usize,
) -> VortexResult<Option<RawNode>>
    requires { HasSlot slot child.now parent.now }
    ensures { BuiltinAnswers StructCast slot parent.now result }
{
    if !applies_struct_cast(parent) || !child.is::<Struct>() {
        return Ok(None);
    }
    cast_of_structs(alloc, child, parent, slot)
}

/// Returns whether `array` casts to a struct type.
fn applies_struct_cast(array: &ArrayRef) -> bool
    ensures { result ≡ applies is_struct_cast (datum array.now) }
{
    match array.encoding() {
        Encoding::ScalarFn(data) => is_struct_cast(&data.scalar_fn),
        _ => false,
    }
}

/// Returns whether `scalar_fn` is a cast to a struct type.
fn is_struct_cast(scalar_fn: &ScalarFnRef) -> bool
    ensures { result ≡ is_struct_cast scalar_fn.now }
{
    match scalar_fn {
        ScalarFnRef::Cast(DType::Struct(_, _)) => true,
        _ => false,
    }
}

/// Returns the fields of the struct type to which `scalar_fn` casts.
fn fields_of_target(scalar_fn: &ScalarFnRef) -> &StructFields
    requires { is_struct_cast scalar_fn.now ≡ true }
    ensures { (m : Nullability) × (scalar_fn.now ≡ fn_of.Cast (dtype_of.Struct result.now m)) }
{
    let ScalarFnRef::Cast(DType::Struct(fields, _)) = scalar_fn else {
        unreachable!()
    };
    fields
}

/// Returns the column of the casts of the fields of `child`, a column of structs in `slot` of `parent`, which casts it to a struct type.
/// `None` exactly if it has a validity. Fails only with `OutOfMemory`.
fn cast_of_structs(
    alloc: Global,
    child: &ArrayRef,
    parent: &ArrayRef,
    slot: usize,
) -> VortexResult<Option<RawNode>>
    requires cast { applies is_struct_cast (datum parent.now) ≡ true }
    requires structs { is_struct (datum child.now) ≡ true }
    requires slot { HasSlot slot child.now parent.now }
    ensures { BuiltinAnswers StructCast slot parent.now result }
{
    parent.well_formed_tree();
    let (scalar_fn, _) = function_parts(parent);
    let fields = fields_of_target(scalar_fn);
    let Some((validity, columns)) = child.slots().split_last() else {
        return Ok(None);
    };
    if validity.is_some() {
        return Ok(None);
    }
    let casts = cast_fields(alloc, fields.as_slice(), columns)?;
    let structs = structs_node(alloc, parent, child.len(), casts)?;
    RawNode::raw(alloc, structs)
}

/// Returns the casts of the trees in `columns` to the types of `fields`, and an absent slot behind them. Fails only with `OutOfMemory`.
fn cast_fields(
    alloc: Global,
    fields: &[Field],
    columns: &[Option<ArrayRef>],
) -> VortexResult<Vec<Option<ArrayRef>>>
    requires { AreCastable fields.now columns.now }
    ensures ok { IfOk result (λ v. AreFieldsCast fields.now columns.now v.items) }
    ensures err { OnlyOutOfMemory result }
{
    let mut casts = Vec::with_capacity(alloc, columns.len())?;
    for index in 0..columns.len() {
        casts.push(cast_slot(alloc, &columns[index], &fields[index].dtype)?)?;
    }
    casts.push(None)?;
    Ok(casts)
}

/// Returns the cast of the tree in `slot`, which must have one whose type has a cast to `target`. Fails only with `OutOfMemory`.
fn cast_slot(
    alloc: Global,
    slot: &Option<ArrayRef>,
    target: &DType,
) -> VortexResult<Option<ArrayRef>>
    requires { IsCastable target.now slot.now }
    ensures ok { IfOk result (IsSlotCast target.now slot.now) }
    ensures err { OnlyOutOfMemory result }
{
    let Some(column) = slot else { unreachable!() };
    Ok(Some(cast_node(alloc, column, target)?))
}

/// Makes the cast of `array` to `target`, to which its type must have a cast. Fails only with `OutOfMemory`.
fn cast_node(alloc: Global, array: &ArrayRef, target: &DType) -> VortexResult<ArrayRef>
    requires castable { has_cast (dtype array.now) (type_of target.now) ≡ true }
    requires columns { has_columns (type_of target.now) ≡ true }
    ensures ok { IfOk result (λ t. IsCastTo (type_of target.now) (len array.now) array.now t) }
    ensures err { OnlyOutOfMemory result }
{
    let slots = vec![in alloc; Some(array.clone()?)]?;
    let payload = ScalarFnData::new(ScalarFnRef::Cast(target.clone()?));
    let vtable = ScalarFn {
        id: payload.scalar_fn.id(),
    };
    let parts = ArrayParts::new(vtable, target.clone()?, array.len(), payload, slots);
    Ok(Array::from_parts_unchecked(alloc, parts)?.into_array())
}
