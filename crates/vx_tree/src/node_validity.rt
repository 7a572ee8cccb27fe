//! The validity of every node.

ghost use Rattle.std.specs.Prelude.{◌≡◌, ◌≤◌, IfOk, length};
ghost use Rattle.vx_value.specs.Errors.{OnlyOutOfMemory};
ghost use Rattle.vx_mask.specs.Masks.{bits_in};
ghost use Rattle.vx_tree.specs.Tree.{Tree, len, slice_of, filter_of, validity_in};
ghost use Rattle.vx_tree.specs.Validities.{HasRows, validity_of};
ghost use Rattle.vx_tree.specs.NodeValidities.{node_validity, constant_validity, on_array, both_of, joined};
ghost use Rattle.vx_tree.specs.declared.validity.Validity.TheVariants.{Array as ValidityArray};

use crate::array::{ArrayKind, ArrayRef, IntoArray, Layout};
use crate::arrays::extension::extension_storage;
use crate::arrays::filter::FilterArray;
use crate::arrays::scalar_fn::ScalarFnArray;
use crate::arrays::scalar_fn_validity::ScalarFnValidityArray;
use crate::arrays::slice::SliceArray;
use crate::arrays::structs::struct_slots;
use crate::validity::{Validity, child_to_validity};
use std::alloc::Global;
use std::ops::Range;
use vx_fn::{Operator, ScalarFnRef};
use vx_mask::Mask;
use vx_value::{Nullability, Scalar, VortexResult};

impl ArrayRef {
    /// Returns which rows are null. Reads no rows: arrays of validities are sliced, filtered and joined lazily. Fails only with
    /// `OutOfMemory`.
    pub fn validity(&self, alloc: Global) -> VortexResult<Validity>
        ensures ok { IfOk result (λ v. v ≡ node_validity self.now) }
        ensures err { OnlyOutOfMemory result }
    {
        node_validity(alloc, self)
    }
}

/// Returns which rows of `array` are null: a line for each encoding. Fails only with `OutOfMemory`.
#[tactic(auto, using(crate::proofs::ScalarFnLemmas::told_by_test))]
fn node_validity(alloc: Global, array: &ArrayRef) -> VortexResult<Validity>
    ensures ok { IfOk result (λ v. v ≡ node_validity array.now) }
    ensures err { OnlyOutOfMemory result }
{
    if !array.dtype().is_nullable() {
        return Ok(Validity::NonNullable);
    }
    array.well_formed_tree();
    let len = array.len();
    match array.kind() {
        ArrayKind::Constant(scalar) => Ok(constant_validity(scalar)),
        #[tactic(auto, using(crate::proofs::SliceRowsLemmas::slice_bounds))]
        ArrayKind::Slice(child, start, end) => {
            slice_rows(alloc, node_validity(alloc, child)?, start..end)
        }
        ArrayKind::Filter(child, mask) => filter_rows(alloc, node_validity(alloc, child)?, mask),
        ArrayKind::Masked(child, own) => {
            join(
                alloc,
                slot_validity(own)?,
                node_validity(alloc, child)?,
                len,
            )
        }
        ArrayKind::ScalarFnValidity(_) => Ok(Validity::NonNullable),
        ArrayKind::ScalarFn(_, _) => test_lazily(alloc, array),
        ArrayKind::Dict(_, _) => test_lazily(alloc, array),
        ArrayKind::Chunked(_) => test_lazily(alloc, array),
        ArrayKind::Interleave(_) => test_lazily(alloc, array),
        ArrayKind::Null => Ok(Validity::AllInvalid),
        ArrayKind::Bool(_, own)
        | ArrayKind::Primitive(_, own)
        | ArrayKind::Decimal(_, own)
        | ArrayKind::VarBinView(_, own) => slot_validity(own),
        ArrayKind::Composed(Layout::Struct, slots) => slot_validity(struct_slots(slots).1),
        ArrayKind::Composed(Layout::Extension, slots) => {
            node_validity(alloc, extension_storage(slots))
        }
    }
}

/// Returns the validity of a nullable constant.
fn constant_validity(scalar: &Scalar) -> Validity
    ensures { result ≡ constant_validity scalar.now.value }
{
    if scalar.is_null() {
        Validity::AllInvalid
    } else {
        Validity::AllValid
    }
}

/// Returns the validity that `slot` stands for in a nullable column. Fails only with `OutOfMemory`.
fn slot_validity(slot: &Option<ArrayRef>) -> VortexResult<Validity>
    ensures ok { IfOk result (λ v. v ≡ validity_of Nullability.Nullable slot.now) }
    ensures err { OnlyOutOfMemory result }
{
    child_to_validity(slot.as_ref(), Nullability::Nullable)
}

/// Returns the validity of the rows in `range`, which must be in order and in bounds; `validity` is that of all rows. Fails
/// only with `OutOfMemory`.
fn slice_rows(alloc: Global, validity: Validity, range: Range<usize>) -> VortexResult<Validity>
    requires order { range.start ≤ range.end }
    requires bounds { (t : Tree) → validity ≡ ValidityArray t → range.end ≤ len t }
    ensures ok { IfOk result (λ v. v ≡ on_array (slice_of range.start range.end) validity) }
    ensures err { OnlyOutOfMemory result }
{
    match validity {
        Validity::Array(array) => {
            let rows = SliceArray::new(alloc, array, range)?;
            Ok(Validity::Array(rows.into_array()))
        }
        other => Ok(other),
    }
}

/// Returns the validity of the rows that `mask` chooses; `validity` is that of all rows, as many as `mask` has. Fails only with
/// `OutOfMemory`.
fn filter_rows(alloc: Global, validity: Validity, mask: &Mask) -> VortexResult<Validity>
    requires { (t : Tree) → validity ≡ ValidityArray t → length (bits_in mask.now) ≡ len t }
    ensures ok { IfOk result (λ v. v ≡ on_array (filter_of (bits_in mask.now)) validity) }
    ensures err { OnlyOutOfMemory result }
{
    match validity {
        Validity::Array(array) => {
            let rows = FilterArray::new(alloc, array, mask.clone()?)?;
            Ok(Validity::Array(rows.into_array()))
        }
        other => Ok(other),
    }
}

/// Returns the validity of `len` rows that are null if `first` or `second` says so. Fails only with `OutOfMemory`.
fn join(alloc: Global, first: Validity, second: Validity, len: usize) -> VortexResult<Validity>
    requires first { HasRows first len }
    requires second { HasRows second len }
    ensures ok { IfOk result (λ v. v ≡ joined len first second) }
    ensures err { OnlyOutOfMemory result }
{
    match (first, second) {
        (Validity::AllInvalid, _) => Ok(Validity::AllInvalid),
        (_, Validity::AllInvalid) => Ok(Validity::AllInvalid),
        (Validity::Array(first), Validity::Array(second)) => {
            Ok(Validity::Array(and_lazily(alloc, first, second, len)?))
        }
        (Validity::Array(first), _) => Ok(Validity::Array(first)),
        (_, Validity::Array(second)) => Ok(Validity::Array(second)),
        _ => Ok(Validity::AllValid),
    }
}

/// Makes the lazy conjunction of two arrays, which must be non-nullable booleans, `len` rows each. Fails only with
/// `OutOfMemory`. (own)
#[tactic(auto, using(crate::proofs::JoinedLemmas::and_taken, crate::proofs::JoinedLemmas::and_made))]
pub fn and_lazily(
    alloc: Global,
    first: ArrayRef,
    second: ArrayRef,
    len: usize,
) -> VortexResult<ArrayRef>
    requires first { HasRows (ValidityArray first) len }
    requires second { HasRows (ValidityArray second) len }
    ensures ok { IfOk result (λ a. a ≡ both_of len first second) }
    ensures err { OnlyOutOfMemory result }
{
    let children = vec![in alloc; first, second]?;
    let function = ScalarFnRef::Binary(Operator::And);
    let both = ScalarFnArray::try_new_with_len(alloc, function, children, len)?;
    Ok(both.into_array())
}

/// Returns the lazy test of `array`'s rows for null. Fails only with `OutOfMemory`.
fn test_lazily(alloc: Global, array: &ArrayRef) -> VortexResult<Validity>
    ensures ok { IfOk result (λ v. v ≡ ValidityArray (validity_in array.now)) }
    ensures err { OnlyOutOfMemory result }
{
    let test = ScalarFnValidityArray::new(alloc, array.clone()?)?;
    Ok(Validity::Array(test.into_array()))
}
