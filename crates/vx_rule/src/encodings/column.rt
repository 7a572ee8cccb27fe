//! The rules of canonical columns, which they all share.

ghost use Rattle.std.specs.Prelude.{◌≡◌, ◌∷◌, [], Some, None, true};
ghost use Rattle.vx_fn.specs.declared.function.ScalarFnRef.TheVariants as fn_of;
ghost use Rattle.vx_value.specs.Types.{nullability_of};
ghost use Rattle.vx_value.specs.declared.dtype.Nullability.TheVariants.{Nullable};
ghost use Rattle.vx_tree.specs.Tree.{Data, dtype, datum, slice_of, is_canonical, is_struct};
ghost use Rattle.vx_rule.specs.Calls.{IsCallOf};
ghost use Rattle.vx_rule.specs.Items.{HasItem, IsFieldColumn};
ghost use Rattle.vx_rule.specs.Rules.{IsPartOf};
ghost use Rattle.vx_rule.specs.Answers.{Answers};
ghost use Rattle.vx_rule.specs.SliceLaws.{canonical_lets, nulls_canonical, bool_canonical, primitive_canonical, decimals_canonical, views_canonical, struct_canonical, extension_canonical};

use crate::adaptors::{GetItemReduce, GetItemReduceAdaptor, SliceReduce, SliceReduceAdaptor};
use crate::encodings::parent_rules;
use crate::nodes::{column_slice, function_node};
use crate::raw_node::RawNode;
use crate::rule::DynArrayParentReduceRule;
use crate::rule_set::ReduceVTable;
use crate::slots::validity_column;
use std::alloc::Global;
use std::ops::Range;
use vx_fn::ScalarFnRef;
use vx_tree::{
    ArrayRef, ArrayView, Bool, Decimal, Extension, Null, Primitive, Struct, VTable, VarBinView,
    struct_slots,
};
use vx_value::{DType, Name, Nullability, VortexResult};

/// Canonical encodings. (own)
pub trait CanonicalEncoding: VTable {
    // its node data are those of a canonical column
    ghost canonical: { (d : Data) → Self.is_kind d ≡ true → is_canonical d ≡ true };
}

impl CanonicalEncoding for Null {
    ghost canonical = { nulls_canonical };
}

impl CanonicalEncoding for Bool {
    ghost canonical = { bool_canonical };
}

impl CanonicalEncoding for Primitive {
    ghost canonical = { primitive_canonical };
}

impl CanonicalEncoding for Decimal {
    ghost canonical = { decimals_canonical };
}

impl CanonicalEncoding for VarBinView {
    ghost canonical = { views_canonical };
}

impl CanonicalEncoding for Struct {
    ghost canonical = { struct_canonical };
}

impl CanonicalEncoding for Extension {
    ghost canonical = { extension_canonical };
}

impl<V: CanonicalEncoding> ReduceVTable for V {
    #[tactic(auto, using(crate::proofs::QuietLemmas::own_quiet))]
    fn reduce(_alloc: Global, _array: &ArrayView<'_, V>) -> VortexResult<Option<RawNode>> {
        Ok(None)
    }

    fn reduce_parent(
        alloc: Global,
        child: &ArrayView<'_, V>,
        parent: &ArrayRef,
        slot: usize,
    ) -> VortexResult<Option<RawNode>> {
        parent_rules!(V, alloc, child, parent, slot; GetItemReduceAdaptor, SliceReduceAdaptor)
    }
}

impl<V: CanonicalEncoding> SliceReduce for V {
    fn slice(
        alloc: Global,
        array: &ArrayView<'_, V>,
        range: Range<usize>,
    ) -> VortexResult<Option<RawNode>> {
        slice_of_column(alloc, array.array(), range)
    }

    ghost lets = { λ d k. canonical_lets d (V.canonical d k) };
}

impl<V: CanonicalEncoding> GetItemReduce for V {
    fn get_item(
        alloc: Global,
        array: &ArrayView<'_, V>,
        parent: &ArrayRef,
        name: &Name,
    ) -> VortexResult<Option<RawNode>> {
        item_of_column(alloc, parent, name, array.array())
    }
}

/// Row G4, if `child`, which must be canonical, is a column of structs: the column of the field `name`. No row fits else.
#[tactic(auto, using(crate::proofs::ChildrenLemmas::item_quiet, crate::proofs::FitsLemmas::fit_G4, crate::proofs::ItemNodesLemmas::given_has))]
fn item_of_column(
    alloc: Global,
    parent: &ArrayRef,
    name: &Name,
    child: &ArrayRef,
) -> VortexResult<Option<RawNode>>
    requires canonical { is_canonical (datum child.now) ≡ true }
    requires call { IsCallOf (fn_of.GetItem name.now) (child.now ∷ []) parent.now }
    ensures { Answers (Some 0) parent.now result }
{
    if !child.is::<Struct>() {
        return Ok(None);
    }
    parent.well_formed_tree();
    let field = field_column(child, name);
    match child.dtype().nullability() {
        Nullability::NonNullable => Ok(Some(RawNode::done(alloc, field.clone()?))),
        Nullability::Nullable => masked_field(alloc, parent, name, child, field),
    }
}

/// Returns the column of the field `name` of `array`, which must be a column of structs with such a field.
fn field_column<'a>(array: &'a ArrayRef, name: &Name) -> &'a ArrayRef
    requires structs { is_struct (datum array.now) ≡ true }
    requires has { HasItem name.now array.now }
    ensures { IsFieldColumn name.now array.now result.now }
{
    array.well_formed_tree();
    let DType::Struct(fields, _) = array.dtype() else {
        unreachable!()
    };
    let Some(place) = fields.find(name.as_str()) else {
        unreachable!()
    };
    let Some(field) = &array.slots()[place] else {
        unreachable!()
    };
    field
}

/// Row G4 of nullable structs: `field`, the column of the field `name`, masked by the validity of `child`.
fn masked_field(
    alloc: Global,
    parent: &ArrayRef,
    name: &Name,
    child: &ArrayRef,
    field: &ArrayRef,
) -> VortexResult<Option<RawNode>>
    requires structs { is_struct (datum child.now) ≡ true }
    requires nullable { nullability_of (dtype child.now) ≡ Nullable }
    requires field { IsFieldColumn name.now child.now field.now }
    requires call { IsCallOf (fn_of.GetItem name.now) (child.now ∷ []) parent.now }
    ensures { Answers (Some 0) parent.now result }
{
    parent.well_formed_tree();
    child.well_formed_tree();
    let (_, validity) = struct_slots(child.slots());
    let len = parent.len();
    let validity = validity_column(alloc, validity, len)?;
    let slots = vec![in alloc; Some(field.clone()?), Some(validity)]?;
    let mask = function_node(alloc, parent, &ScalarFnRef::Mask, len, slots)?;
    Ok(Some(RawNode::done(alloc, mask)))
}

/// Row S3: a slice of a canonical column is the column of its range, which shares its buffers.
fn slice_of_column(
    alloc: Global,
    array: &ArrayRef,
    range: Range<usize>,
) -> VortexResult<Option<RawNode>>
    requires canonical { is_canonical (datum array.now) ≡ true }
    requires part { IsPartOf range.start range.end array.now }
    ensures { Answers (Some 0) (slice_of range.start range.end array.now) result }
{
    RawNode::raw(alloc, column_slice(alloc, array, range)?)
}
