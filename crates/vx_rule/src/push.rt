//! Slices pushed down.

ghost use Rattle.std.specs.Prelude.{◌≡◌, ◌≤◌, ◌*◌, ◌+◌, IfOk, true, false};
ghost use Rattle.vx_value.specs.Errors.{OnlyOutOfMemory};
ghost use Rattle.vx_tree.specs.Tree.{len, datum, masked_of, dict_of, slice_of, is_canonical, is_function};
ghost use Rattle.vx_tree.specs.Keeps.{KeepsExactly};
ghost use Rattle.vx_tree.specs.Cost.{cost, reach};
ghost use Rattle.vx_rule.specs.Rules.{lets_slice, IsPartOf};
ghost use Rattle.vx_rule.specs.Pushes.{pushed, IsPushed};
ghost use Rattle.vx_rule.specs.Tags.{is_open};

use crate::nodes::{
    column_slice, constant_like, dict_node, empty_column, function_node, function_parts,
    masked_node,
};
use crate::scalar_fns::lets_below;
use std::alloc::Global;
use std::ops::Range;
use vx_tree::{AnyCanonical, ArrayKind, ArrayRef, IntoArray, SliceArray, slice_validity};
use vx_value::VortexResult;

/// Returns the rows of `array` in `range`, which must be in order and in bounds, with the slice pushed down as far as the rows
/// S1 to S6 reach. A range of all rows gives the tree itself, and one of no rows the empty column. A node that no row reaches,
/// such as a filter or `get_item`, is sliced lazily. No buffer of values is copied. The only lazy slices that it adds stand above such nodes,
/// and in the slots of validities, whose rows are sliced lazily unless they are constant. Fails only with `OutOfMemory`. (own)
pub fn push_slice(alloc: Global, array: &ArrayRef, range: Range<usize>) -> VortexResult<ArrayRef>
    requires { (range.start ≤ range.end) × (range.end ≤ len array.now) }
    ensures ok { IfOk result (λ t. KeepsExactly (slice_of range.start range.end array.now) t) }
    ensures pushed { IfOk result (λ t. t ≡ pushed range.start range.end array.now) }
    ensures cost { IfOk result (λ t. cost t ≤ cost array.now + 3 * reach array.now) }
    ensures canonical { IfOk result (λ t. is_canonical (datum array.now) ≡ true → is_canonical (datum t) ≡ true) }
    ensures err { OnlyOutOfMemory result }
{
    push(alloc, array, range)
}

/// Returns the rows of `array` in `range`: a line for each encoding. Fails only with `OutOfMemory`.
#[cycle(push)]
fn push(alloc: Global, array: &ArrayRef, range: Range<usize>) -> VortexResult<ArrayRef>
    requires { (range.start ≤ range.end) × (range.end ≤ len array.now) }
    ensures ok { IfOk result (λ t. IsPushed range.start range.end array.now t) }
    ensures err { OnlyOutOfMemory result }
{
    array.well_formed_tree();
    if range.start == 0 && range.end == array.len() {
        return Ok(array.clone()?);
    }
    if range.start == range.end {
        return empty_column(alloc, array.dtype());
    }
    let (start, end) = (range.start, range.end);
    match array.kind() {
        ArrayKind::Constant(_) => constant_like(alloc, array, end - start),
        ArrayKind::Slice(child, from, _) => push(alloc, child, from + start..from + end),
        ArrayKind::ScalarFn(f, _) if lets_below(f) => push_function(alloc, array, range),
        ArrayKind::Masked(child, validity) => match push(alloc, child, start..end) {
            Ok(part) => masked_part(alloc, array, child, validity, part, range),
            Err(e) => Err(e),
        },
        ArrayKind::Dict(codes, values) => match push(alloc, codes, start..end) {
            Ok(part) => dict_part(alloc, array, codes, values, part, range),
            Err(e) => Err(e),
        },
        _ if array.is::<AnyCanonical>() => column_slice(alloc, array, range),
        _ => lazily(alloc, array, range),
    }
}

/// Returns the rows of `array`, which must be a function node, in `range`, with the slice pushed below the function. Fails only
/// with `OutOfMemory`.
#[cycle(push)]
fn push_function(alloc: Global, array: &ArrayRef, range: Range<usize>) -> VortexResult<ArrayRef>
    requires function { is_function (datum array.now) ≡ true }
    requires open { is_open (datum array.now) ≡ true }
    requires part { IsPartOf range.start range.end array.now }
    ensures ok { IfOk result (λ t. IsPushed range.start range.end array.now t) }
    ensures err { OnlyOutOfMemory result }
{
    let (scalar_fn, slots) = function_parts(array);
    let (start, end) = (range.start, range.end);
    let mut parts = Vec::with_capacity(alloc, slots.len())?;
    for slot in slots {
        let Some(child) = slot else { unreachable!() };
        match push(alloc, child, start..end) {
            Ok(part) => parts.push(Some(part))?,
            Err(e) => return Err(e),
        }
    }
    function_node(alloc, array, scalar_fn, end - start, parts)
}

/// Returns a lazy slice of `array`, through which no slice passes. Fails only with `OutOfMemory`.
#[tactic(auto, using(crate::proofs::PushLemmas::lazily_pushed))]
fn lazily(alloc: Global, array: &ArrayRef, range: Range<usize>) -> VortexResult<ArrayRef>
    requires stopped { lets_slice (datum array.now) ≡ false }
    requires part { IsPartOf range.start range.end array.now }
    ensures ok { IfOk result (λ t. IsPushed range.start range.end array.now t) }
    ensures err { OnlyOutOfMemory result }
{
    Ok(SliceArray::new(alloc, array.clone()?, range)?.into_array())
}

/// Returns the rows of `array`, which masks `child` by `validity`, in `range`; `part` holds those of `child`. Fails only with
/// `OutOfMemory`.
#[tactic(auto, using(crate::proofs::PushLemmas::masked_pushed, crate::proofs::PushLemmas::masked_range, crate::proofs::PushLemmas::masked_well))]
fn masked_part(
    alloc: Global,
    array: &ArrayRef,
    child: &ArrayRef,
    validity: &Option<ArrayRef>,
    part: ArrayRef,
    range: Range<usize>,
) -> VortexResult<ArrayRef>
    requires shape { array.now ≡ masked_of child.now validity.now }
    requires within { IsPartOf range.start range.end array.now }
    requires part { IsPushed range.start range.end child.now part }
    ensures ok { IfOk result (λ t. IsPushed range.start range.end array.now t) }
    ensures err { OnlyOutOfMemory result }
{
    array.well_formed_tree();
    let validity = slice_validity(alloc, validity, range)?;
    masked_node(alloc, array, part, validity)
}

/// Returns the rows of `array`, the dictionary of `values` by `codes`, in `range`; `part` holds those of `codes`. Fails only with
/// `OutOfMemory`.
fn dict_part(
    alloc: Global,
    array: &ArrayRef,
    codes: &ArrayRef,
    values: &ArrayRef,
    part: ArrayRef,
    range: Range<usize>,
) -> VortexResult<ArrayRef>
    requires shape { array.now ≡ dict_of codes.now values.now }
    requires within { IsPartOf range.start range.end array.now }
    requires part { IsPushed range.start range.end codes.now part }
    ensures ok { IfOk result (λ t. IsPushed range.start range.end array.now t) }
    ensures err { OnlyOutOfMemory result }
{
    array.well_formed_tree();
    dict_node(alloc, part, values.clone()?)
}
