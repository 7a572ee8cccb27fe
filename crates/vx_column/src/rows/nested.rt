//! Single rows of columns of nested types.

ghost use Rattle.std.specs.Prelude.{◌≡◌, ◌<◌, IfOk, IfErr};
ghost use Rattle.vx_tree.specs.Tree.{node, composed, dtype, len, slots_of};
ghost use Rattle.vx_tree.specs.Well.{IsNode, shapes};
ghost use Rattle.vx_column.specs.Read.{IsRow, IsUnreadRow};

use crate::rows::probe::{scalar_at, unless_null};
use std::alloc::Global;
use vx_tree::{ArrayRef, Layout, extension_storage, struct_slots};
use vx_value::{Scalar, VortexResult};

/// Returns the value of row `index` of `array`, structs whose fields and validity are in `slots`. Each field is read, also if the
/// struct is null.
#[cycle(scalar_at)]
pub(super) fn struct_at(
    alloc: Global,
    array: &ArrayRef,
    slots: &[Option<ArrayRef>],
    index: usize,
) -> VortexResult<Scalar>
    requires index { index < len array.now }
    requires shape { array.now ≡ node (dtype array.now) (len array.now) (composed Layout.Struct) (slots_of slots.now) }
    requires well { IsNode (dtype array.now) (len array.now) (composed Layout.Struct) (shapes (slots_of slots.now)) }
    ensures ok { IfOk result (IsRow array.now index) }
    ensures err { IfErr result (IsUnreadRow array.now index) }
{
    array.well_formed_tree();
    let (fields, validity) = struct_slots(slots);
    let mut parts = Vec::with_capacity(alloc, fields.len())?;
    for slot in fields {
        let Some(child) = slot else { unreachable!() };
        match scalar_at(alloc, child, index) {
            Ok(scalar) => parts.push(scalar)?,
            Err(e) => return Err(e),
        }
    }
    let dtype = array.dtype().clone()?;
    let stored = Scalar::from_fields(alloc, dtype, parts)?;
    unless_null(alloc, validity, index, stored)
}

/// Returns the value of row `index` of `array`, a column of an extension type whose storage is in `slots`.
#[cycle(scalar_at)]
pub(super) fn extension_at(
    alloc: Global,
    array: &ArrayRef,
    slots: &[Option<ArrayRef>],
    index: usize,
) -> VortexResult<Scalar>
    requires index { index < len array.now }
    requires shape { array.now ≡ node (dtype array.now) (len array.now) (composed Layout.Extension) (slots_of slots.now) }
    requires well { IsNode (dtype array.now) (len array.now) (composed Layout.Extension) (shapes (slots_of slots.now)) }
    ensures ok { IfOk result (IsRow array.now index) }
    ensures err { IfErr result (IsUnreadRow array.now index) }
{
    match scalar_at(alloc, extension_storage(slots), index) {
        Ok(storage) => Ok(Scalar::from_storage(array.dtype().clone()?, storage)),
        Err(e) => Err(e),
    }
}
