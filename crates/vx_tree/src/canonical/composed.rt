//! Slices of nested columns.

ghost use Rattle.std.specs.Prelude.{◌≡◌, ◌≤◌, IfOk, refl, true};
ghost use Rattle.vx_value.specs.Errors.{OnlyOutOfMemory};
ghost use Rattle.vx_tree.specs.Tree.{slots, slots_of, dtype, len, datum, composed, slice_of};
ghost use Rattle.vx_tree.specs.Slots.{map_slots};
ghost use Rattle.vx_tree.specs.Parts.{part_of, column_range};
ghost use Rattle.vx_tree.specs.Validities.{HaveRange};
ghost use Rattle.vx_tree.specs.declared.array.layout.Layout.{Layout as LayoutOf};
ghost use Rattle.vx_tree.specs.declared.array.layout.Layout.TheVariants as layouts;
ghost use Rattle.vx_tree.specs.Keeps.{KeepsExactly};
ghost use Rattle.vx_tree.specs.Well.{IsWell};
ghost use Rattle.vx_value.specs.Supported.{has_columns};

use crate::array::{Array, ArrayRef, VTable};
use crate::arrays::extension::Extension;
use crate::arrays::scalar_fn_validity::EmptyArrayData;
use crate::arrays::structs::Struct;
use crate::validity::slice_validity;
use std::alloc::Global;
use std::ops::Range;
use vx_value::VortexResult;

/// Encodings of nested columns: they hold no rows themselves. (own)
pub(crate) trait ComposedEncoding: VTable {
    ghost layout: { LayoutOf };

    /// Returns the data of a node.
    fn no_data() -> Self::TypedArrayData
        ensures { Self.stands_for result ≡ composed layout };

    // a node with its data is such a column
    ghost composed_as: { (d : Self.TypedArrayData) → Self.stands_for d ≡ composed layout };
}

impl ComposedEncoding for Struct {
    ghost layout = { layouts.Struct };

    fn no_data() -> EmptyArrayData {
        EmptyArrayData
    }

    ghost composed_as = { λ d. refl };
}

impl ComposedEncoding for Extension {
    ghost layout = { layouts.Extension };

    fn no_data() -> EmptyArrayData {
        EmptyArrayData
    }

    ghost composed_as = { λ d. refl };
}

/// Returns the rows of `column` in `range`, which must be in order and in bounds: lazy slices of its slots. Fails only with
/// `OutOfMemory`.
pub(crate) fn slice_composed<V: ComposedEncoding>(
    alloc: Global,
    column: &Array<V>,
    range: Range<usize>,
) -> VortexResult<Array<V>>
    requires { (range.start ≤ range.end) × (range.end ≤ len column.now) }
    ensures ok { IfOk result (λ a. KeepsExactly (slice_of range.start range.end column.now) a) }
    ensures range { IfOk result (λ a. a ≡ column_range range.start range.end column.now) }
    ensures err { OnlyOutOfMemory result }
{
    let dtype = column.dtype().clone()?;
    let slots = slice_slots(alloc, composed_slots(column), range.start..range.end)?;
    Array::of(alloc, dtype, range.end - range.start, V::no_data(), slots)
}

/// Returns the slots of `column`; states its layout, and that it is well formed.
fn composed_slots<V: ComposedEncoding>(column: &Array<V>) -> &[Option<ArrayRef>]
    ensures slots { slots_of result.now ≡ slots column.now }
    ensures composed { composed V.layout ≡ datum column.now }
    ensures formed { IsWell column.now }
    ensures columns { has_columns (dtype column.now) ≡ true }
{
    let _data = column.data();
    let _dtype = column.dtype();
    column.as_array().well_formed_tree();
    column.slots()
}

/// Returns lazy slices of the trees in `slots`, in whose rows `range` must lie; a constant stays one. Fails only with `OutOfMemory`.
pub(crate) fn slice_slots(
    alloc: Global,
    slots: &[Option<ArrayRef>],
    range: Range<usize>,
) -> VortexResult<Vec<Option<ArrayRef>>>
    requires { HaveRange range.start range.end slots.now }
    ensures ok { IfOk result (λ parts. slots_of parts.items ≡ map_slots (part_of range.start range.end) (slots_of slots.now)) }
    ensures err { OnlyOutOfMemory result }
{
    let mut parts = Vec::with_capacity(alloc, slots.len())?;
    for slot in slots {
        parts.push(slice_validity(alloc, slot, range.start..range.end)?)?;
    }
    Ok(parts)
}
