//! Columns filtered by a mask.

ghost use Rattle.std.specs.Prelude.{◌≡◌, ◌∷◌, [], IfOk, length, true};
ghost use Rattle.vx_value.specs.Errors.{OnlyOutOfMemory};
ghost use Rattle.vx_value.specs.Types.{bool};
ghost use Rattle.vx_mask.specs.Masks.{bits_in};
ghost use Rattle.vx_mask.specs.Places.{true_count};
ghost use Rattle.vx_tree.specs.Tree.{node, dtype, len, datum, composed, filter_of, slots_of, all_long};
ghost use Rattle.vx_tree.specs.Slots.{map_slots};
ghost use Rattle.vx_tree.specs.Parts.{choice_of};
ghost use Rattle.vx_tree.specs.Well.{AreWell, shapes};
ghost use Rattle.vx_tree.specs.Keeps.{KeepsExactly};
ghost use Rattle.vx_tree.specs.Canonicals.{canonical_tree};
ghost use Rattle.vx_tree.specs.Validities.{nullability_by, child_of, HasRows};
ghost use Rattle.vx_column.specs.Filtered.{IsChoice, chosen_data};
ghost use Rattle.vx_column.specs.ValidRows.{TellsRows};

use crate::canonicalize::composed_column;
use crate::rows::{bool_column, decimal_column, primitive_column, varbinview_column};
use std::alloc::Global;
use vx_mask::Mask;
use vx_tree::{
    ArrayKind, ArrayRef, Canonical, FilterArray, IntoArray, Layout, NullArray, Validity,
    child_to_validity, choose_validity,
};
use vx_value::{DType, Nullability, VortexResult};

/// Returns the column of the rows of `column` at the true bits of `mask`, which must have a bit for each row. Shares the
/// storage of the values if the true bits are consecutive, and always that of the bytes of text. The slots of a nested column are
/// filtered lazily. Fails only with `OutOfMemory`. (own)
pub fn filter_canonical(alloc: Global, column: &Canonical, mask: &Mask) -> VortexResult<Canonical>
    requires { length (bits_in mask.now) ≡ len (canonical_tree column.now) }
    ensures ok { IfOk result (λ c. KeepsExactly (filter_of (bits_in mask.now) (canonical_tree column.now)) (canonical_tree c)) }
    ensures stored { IfOk result (λ c. datum (canonical_tree c) ≡ chosen_data (bits_in mask.now) (datum (canonical_tree column.now))) }
    ensures err { OnlyOutOfMemory result }
{
    let array = column.as_array();
    array.well_formed_tree();
    let nullability = array.dtype().nullability();
    match array.kind() {
        ArrayKind::Null => Ok(Canonical::Null(NullArray::new(alloc, mask.true_count())?)),
        ArrayKind::Bool(bits, validity) => {
            let validity = filter_validity(alloc, validity, nullability, mask)?;
            bool_column(alloc, bits.filter(alloc, mask)?, &validity)
        }
        ArrayKind::Primitive(values, validity) => {
            let validity = filter_validity(alloc, validity, nullability, mask)?;
            primitive_column(alloc, values.filter(alloc, mask)?, &validity)
        }
        ArrayKind::Decimal(values, validity) => {
            let DType::Decimal(decimal, _) = array.dtype() else {
                unreachable!()
            };
            let validity = filter_validity(alloc, validity, nullability, mask)?;
            decimal_column(alloc, *decimal, values.filter(alloc, mask)?, &validity)
        }
        ArrayKind::VarBinView(rows, validity) => {
            let validity = filter_validity(alloc, validity, nullability, mask)?;
            let storage = array.dtype().storage();
            varbinview_column(alloc, storage, rows.filter(alloc, mask)?, &validity)
        }
        ArrayKind::Composed(layout, slots) => filter_composed(alloc, array, layout, slots, mask),
        _ => unreachable!(),
    }
}

/// Returns the rows of `array` at the true bits of `mask`. It must be a column of a nested type with this layout and these
/// slots. Filters them lazily; a constant stays one. Fails only with `OutOfMemory`.
fn filter_composed(
    alloc: Global,
    array: &ArrayRef,
    layout: Layout,
    slots: &[Option<ArrayRef>],
    mask: &Mask,
) -> VortexResult<Canonical>
    requires composed { array.now ≡ node (dtype array.now) (len array.now) (composed layout) (slots_of slots.now) }
    requires sized { length (bits_in mask.now) ≡ len array.now }
    ensures ok { IfOk result (λ c. KeepsExactly (filter_of (bits_in mask.now) array.now) (canonical_tree c)) }
    ensures stored { IfOk result (λ c. datum (canonical_tree c) ≡ composed layout) }
    ensures err { OnlyOutOfMemory result }
{
    array.well_formed_tree();
    let dtype = array.dtype().clone()?;
    let choices = choose_slots(alloc, slots, mask)?;
    composed_column(alloc, layout, dtype, mask.true_count(), choices)
}

/// Returns lazy filters of the trees in `slots`, which must have as many rows as `mask` each; a constant stays one. Fails only
/// with `OutOfMemory`.
fn choose_slots(
    alloc: Global,
    slots: &[Option<ArrayRef>],
    mask: &Mask,
) -> VortexResult<Vec<Option<ArrayRef>>>
    requires { all_long (length (bits_in mask.now)) (shapes (slots_of slots.now)) ≡ true }
    ensures ok { IfOk result (λ choices. slots_of choices.items ≡ map_slots (choice_of (bits_in mask.now)) (slots_of slots.now)) }
    ensures err { OnlyOutOfMemory result }
{
    let mut choices = Vec::with_capacity(alloc, slots.len())?;
    for slot in slots {
        choices.push(choose_validity(alloc, slot, mask)?)?;
    }
    Ok(choices)
}

/// Returns the validity of the rows at the true bits of `mask`, given the slot of the validity of a column of this nullability.
/// Fails only with `OutOfMemory`.
fn filter_validity(
    alloc: Global,
    validity: &Option<ArrayRef>,
    nullability: Nullability,
    mask: &Mask,
) -> VortexResult<Validity>
    requires tells { TellsRows nullability (length (bits_in mask.now)) validity.now }
    requires well { AreWell (slots_of (validity.now ∷ [])) }
    ensures nullability { IfOk result (λ v. nullability_by v ≡ nullability) }
    ensures sized { IfOk result (λ v. HasRows v (true_count (bits_in mask.now))) }
    ensures chosen { IfOk result (λ v. IsChoice (bits_in mask.now) validity.now (child_of v (true_count (bits_in mask.now)))) }
    ensures err { OnlyOutOfMemory result }
{
    match child_to_validity(validity.as_ref(), nullability)? {
        Validity::Array(child) => {
            let kept = filter_truths(alloc, child, mask)?;
            kept.well_formed_tree();
            Ok(Validity::Array(kept))
        }
        same => Ok(same),
    }
}

/// Filters `array`, which must be non-nullable booleans, by `mask`: at once if it is a column without a validity, else lazily.
/// Fails only with `OutOfMemory`.
fn filter_truths(alloc: Global, array: ArrayRef, mask: &Mask) -> VortexResult<ArrayRef>
    requires typed { dtype array ≡ bool Nullability.NonNullable }
    requires sized { length (bits_in mask.now) ≡ len array }
    ensures ok { IfOk result (λ t. KeepsExactly (filter_of (bits_in mask.now) array) t) }
    ensures err { OnlyOutOfMemory result }
{
    if let ArrayKind::Bool(bits, None) = array.kind() {
        let kept = bits.filter(alloc, mask)?;
        return Ok(bool_column(alloc, kept, &Validity::NonNullable)?.into_array());
    }
    Ok(FilterArray::new(alloc, array, mask.clone()?)?.into_array())
}
