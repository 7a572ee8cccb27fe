//! Columns with some rows made null.

ghost use Rattle.std.specs.Prelude.{◌≡◌, ◌⊎◌, ◌∷◌, [], ℕ, Some, true, map, IfOk, IfErr, IfSome};
ghost use Rattle.vx_value.specs.Errors.{OnlyOutOfMemory};
ghost use Rattle.vx_value.specs.Types.{bool, null};
ghost use Rattle.vx_value.specs.Values.{boolean};
ghost use Rattle.vx_value.specs.Cell.{value};
ghost use Rattle.vx_fn.specs.declared.function.ScalarFnRef.TheVariants.{Binary};
ghost use Rattle.vx_tree.specs.Tree.{node, dtype, len, datum, composed, slots_of, nulls, nulls_of, call_of, masked_of, is_canonical};
ghost use Rattle.vx_tree.specs.Cells.{rows};
ghost use Rattle.vx_tree.specs.Keeps.{KeepsExactly};
ghost use Rattle.vx_tree.specs.Canonicals.{canonical_tree};
ghost use Rattle.vx_tree.specs.Validities.{nullability_by, child_of, HasRows};
ghost use Rattle.vx_tree.specs.declared.validity.Validity.TheVariants.{Array};
ghost use Rattle.vx_column.specs.Arguments.{AreUnread};
ghost use Rattle.vx_column.specs.Masked.{TellsAll, IsBoth};

use crate::canonicalize::composed_column;
use crate::rows::{
    ValidRows, bool_column, decimal_column, primitive_column, truths_in, varbinview_column,
};
use std::alloc::Global;
use vx_mask::{BitAnd, BitBuffer, BitOperand};
use vx_tree::{
    ArrayKind, ArrayRef, Canonical, IntoArray, Layout, MaskedArray, NullArray, Validity,
    and_lazily, extension_storage, struct_slots, validity_to_child,
};
use vx_value::{DType, Nullability, VortexError, VortexResult};

/// Returns the rows of `column`, null where `validity` says so, as a nullable column that shares its values; the storage of an
/// extension is masked lazily. `validity` must be a nullable one of as many rows. (own)
///
/// # Errors
///
/// `OutOfMemory`; `Fault` if `column` is a column of nulls, which can't hold a fault, and a row of `validity` has no value.
pub fn mask_validity_canonical(
    alloc: Global,
    column: &Canonical,
    validity: &Validity,
) -> VortexResult<Canonical>
    requires nullable { nullability_by validity.now ≡ Nullability.Nullable }
    requires rows { HasRows validity.now (len (canonical_tree column.now)) }
    ensures ok { IfOk result (λ c. KeepsExactly (masked_of (canonical_tree column.now) (child_of validity.now (len (canonical_tree column.now))))
        (canonical_tree c)) }
    ensures stored { IfOk result (λ c. datum (canonical_tree c) ≡ datum (canonical_tree column.now)) }
    ensures err { IfErr result (λ e. (e ≡ VortexError.OutOfMemory) ⊎ ((dtype (canonical_tree column.now) ≡ null)
        × AreUnread (len (canonical_tree column.now)) (child_of validity.now (len (canonical_tree column.now))) e)) }
{
    let array = column.as_array();
    let child = validity_to_child(alloc, validity, array.len())?;
    mask_column(alloc, array, child)
}

/// Returns the rows of `array`, a canonical column, null where `child`, the slot of a validity, says so. `Fault` if it is a
/// column of nulls and a row of `child` has no value.
fn mask_column(alloc: Global, array: &ArrayRef, child: Option<ArrayRef>) -> VortexResult<Canonical>
    requires canonical { is_canonical (datum array.now) ≡ true }
    requires child { TellsAll (len array.now) child }
    ensures ok { IfOk result (λ c. KeepsExactly (masked_of array.now child) (canonical_tree c)) }
    ensures stored { IfOk result (λ c. datum (canonical_tree c) ≡ datum array.now) }
    ensures err { IfErr result (λ e. (e ≡ VortexError.OutOfMemory) ⊎ ((dtype array.now ≡ null) × AreUnread (len array.now) child e)) }
{
    array.well_formed_tree();
    let len = array.len();
    match array.kind() {
        ArrayKind::Null => mask_nulls(alloc, &child, len),
        ArrayKind::Bool(bits, own) => {
            let both = both_valid(alloc, own, child, len)?;
            bool_column(alloc, bits.clone()?, &both)
        }
        ArrayKind::Primitive(values, own) => {
            let both = both_valid(alloc, own, child, len)?;
            primitive_column(alloc, values.clone()?, &both)
        }
        ArrayKind::Decimal(values, own) => {
            let DType::Decimal(decimal, _) = array.dtype() else {
                unreachable!()
            };
            let both = both_valid(alloc, own, child, len)?;
            decimal_column(alloc, *decimal, values.clone()?, &both)
        }
        ArrayKind::VarBinView(rows, own) => {
            let both = both_valid(alloc, own, child, len)?;
            varbinview_column(alloc, array.dtype().storage(), rows.clone()?, &both)
        }
        ArrayKind::Composed(Layout::Struct, slots) => mask_struct(alloc, array, slots, child),
        ArrayKind::Composed(Layout::Extension, slots) => mask_extension(alloc, array, slots, child),
        _ => unreachable!(),
    }
}

/// Returns the rows of `array`, a column of structs with these slots, null where `child`, the slot of a validity, says so: the
/// fields stay as they are. Fails only with `OutOfMemory`.
fn mask_struct(
    alloc: Global,
    array: &ArrayRef,
    slots: &[Option<ArrayRef>],
    child: Option<ArrayRef>,
) -> VortexResult<Canonical>
    requires structs { array.now ≡ node (dtype array.now) (len array.now) (composed Layout.Struct) (slots_of slots.now) }
    requires child { TellsAll (len array.now) child }
    ensures ok { IfOk result (λ c. KeepsExactly (masked_of array.now child) (canonical_tree c)) }
    ensures stored { IfOk result (λ c. datum (canonical_tree c) ≡ composed Layout.Struct) }
    ensures err { OnlyOutOfMemory result }
{
    array.well_formed_tree();
    let len = array.len();
    let (fields, own) = struct_slots(slots);
    let both = both_valid(alloc, own, child, len)?;
    let mut slots = fields.to_vec(alloc)?;
    slots.push(validity_to_child(alloc, &both, len)?)?;
    let dtype = array.dtype().as_nullable(alloc)?;
    composed_column(alloc, Layout::Struct, dtype, len, slots)
}

/// Returns the rows of `array`, a column of an extension type with these slots, null where `child`, the slot of a validity, says
/// so: the storage is masked lazily. Fails only with `OutOfMemory`.
fn mask_extension(
    alloc: Global,
    array: &ArrayRef,
    slots: &[Option<ArrayRef>],
    child: Option<ArrayRef>,
) -> VortexResult<Canonical>
    requires extension { array.now ≡ node (dtype array.now) (len array.now) (composed Layout.Extension) (slots_of slots.now) }
    requires child { TellsAll (len array.now) child }
    ensures ok { IfOk result (λ c. KeepsExactly (masked_of array.now child) (canonical_tree c)) }
    ensures stored { IfOk result (λ c. datum (canonical_tree c) ≡ composed Layout.Extension) }
    ensures err { OnlyOutOfMemory result }
{
    array.well_formed_tree();
    let storage = extension_storage(slots).clone()?;
    let masked = MaskedArray::new_unchecked(alloc, storage, &told_by(child))?.into_array();
    masked.well_formed_tree();
    let slots = vec![in alloc; Some(masked)]?;
    let dtype = array.dtype().as_nullable(alloc)?;
    composed_column(alloc, Layout::Extension, dtype, array.len(), slots)
}

/// Returns the validity of a nullable column that has `child` in its slot.
fn told_by(child: Option<ArrayRef>) -> Validity
    ensures nullable { nullability_by result ≡ Nullability.Nullable }
    ensures slot { (n : ℕ) → child_of result n ≡ child }
    ensures rows { (n : ℕ) → TellsAll n child → HasRows result n }
{
    match child {
        Some(child) => Validity::Array(child),
        None => Validity::AllValid,
    }
}

/// Returns `len` nulls. `Fault` if a row of the validity in `validity` has no value.
fn mask_nulls(alloc: Global, validity: &Option<ArrayRef>, len: usize) -> VortexResult<Canonical>
    requires { TellsAll len validity.now }
    ensures ok { IfOk result (λ c. KeepsExactly (masked_of (nulls_of len) validity.now) (canonical_tree c)) }
    ensures stored { IfOk result (λ c. datum (canonical_tree c) ≡ nulls) }
    ensures err { IfErr result (AreUnread len validity.now) }
{
    let Some(child) = validity else {
        return Ok(Canonical::Null(NullArray::new(alloc, len)?));
    };
    match truths_in(alloc, child) {
        Ok(_) => Ok(Canonical::Null(NullArray::new(alloc, len)?)),
        Err(e) => Err(e),
    }
}

/// Returns the validity of a nullable column of `len` rows that are valid if the validities in both slots say so. Fails only
/// with `OutOfMemory`.
fn both_valid(
    alloc: Global,
    first: &Option<ArrayRef>,
    second: Option<ArrayRef>,
    len: usize,
) -> VortexResult<Validity>
    requires first { TellsAll len first.now }
    requires second { TellsAll len second }
    ensures nullable { IfOk result (λ v. nullability_by v ≡ Nullability.Nullable) }
    ensures sized { IfOk result (λ v. HasRows v len) }
    ensures both { IfOk result (λ v. IsBoth len first.now second (child_of v len)) }
    ensures err { OnlyOutOfMemory result }
{
    match (first, second) {
        (None, None) => Ok(Validity::AllValid),
        (Some(first), None) => Ok(Validity::Array(first.clone()?)),
        (None, Some(second)) => Ok(Validity::Array(second)),
        (Some(first), Some(second)) => both_true(alloc, first, second, len),
    }
}

/// Returns the validity of a nullable column of `len` rows that are valid if both arrays are true: word by word if both are
/// columns without nulls, else by a lazy conjunction. Fails only with `OutOfMemory`.
fn both_true(
    alloc: Global,
    first: &ArrayRef,
    second: ArrayRef,
    len: usize,
) -> VortexResult<Validity>
    requires first { HasRows (Array first.now) len }
    requires second { HasRows (Array second) len }
    ensures nullable { IfOk result (λ v. nullability_by v ≡ Nullability.Nullable) }
    ensures sized { IfOk result (λ v. HasRows v len) }
    ensures both { IfOk result (λ v. IsBoth len (Some first.now) (Some second) (child_of v len)) }
    ensures err { OnlyOutOfMemory result }
{
    first.well_formed_tree();
    second.well_formed_tree();
    if let (Some(left), Some(right)) = (plain_bits(first), plain_bits(&second)) {
        let left = BitOperand::Bits(left);
        let bits = BitBuffer::zip::<BitAnd>(alloc, left, BitOperand::Bits(right), len)?;
        return ValidRows::Bits(bits).validity(alloc, len);
    }
    let both = and_lazily(alloc, first.clone()?, second, len)?;
    both.well_formed_tree();
    Ok(Validity::Array(both))
}

/// Returns the bits of `array` if it is a column of booleans without a validity.
fn plain_bits(array: &ArrayRef) -> Option<&BitBuffer>
    ensures { IfSome result (λ bits. rows array.now ≡ map (λ b. value (boolean b)) bits.now) }
{
    match array.kind() {
        ArrayKind::Bool(bits, None) => Some(bits),
        _ => None,
    }
}
