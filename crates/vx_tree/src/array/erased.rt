//! The readers of an untyped reference.

ghost use Rattle.std.specs.Prelude.{◌≡◌, ◌==◌, is_some, IfSome, length, map, option_map, slice_get, Some, true};
ghost use Rattle.vx_value.specs.View.{type_of, fields_of};
ghost use Rattle.vx_value.specs.Supported.{has_columns};
ghost use Rattle.vx_tree.specs.Tree.{dtype, len, datum, slots, slots_of, id_of, meaning, interleave_name, field_slot_name, struct_names, struct_name};
ghost use Rattle.vx_tree.specs.Slots.{name_at};
ghost use Rattle.vx_tree.specs.Names.{name_text};
ghost use Rattle.vx_tree.specs.TreeView.{data_of};
ghost use Rattle.vx_tree.specs.Cells.{rows};
ghost use Rattle.vx_tree.specs.Well.{IsWell};

use crate::array::{ArrayRef, ArrayView, Encoding, EncodingVariant, SlotName};
use crate::matcher::Matcher;
use vx_value::{DType, Field, Id};

/// Returns name `index` of `names`.
fn named(names: &[&'static str], index: usize) -> Option<SlotName<'static>>
    ensures { option_map name_text result ≡ slice_get (map (λ s. s.now) names.now) index }
{
    whole(names.get(index).copied())
}

/// Returns `name` as the name of a slot.
fn whole(name: Option<&str>) -> Option<SlotName<'_>>
    ensures { option_map name_text result ≡ option_map (λ s. s.now) name.entry }
{
    match name {
        Some(name) => Some(SlotName::Named(name)),
        None => None,
    }
}

/// Returns the name of slot `index` of an interleaved array.
fn interleaved(index: usize) -> SlotName<'static>
    ensures { Some (name_text result) ≡ interleave_name index }
{
    match index {
        0 => SlotName::Named("array_indices"),
        1 => SlotName::Named("row_indices"),
        _ => SlotName::Numbered("value", index - 2),
    }
}

/// Returns the name of the slot of the field named `name`. That of a field named `validity` isn't the validity's.
fn field_slot(name: &str) -> SlotName<'_>
    ensures { name_text result ≡ field_slot_name name.now }
{
    if name == "validity" {
        SlotName::Named("field:validity")
    } else {
        SlotName::Named(name)
    }
}

/// Returns the name of slot `index` of a column of structs with these fields.
fn field_slot_at(fields: &[Field], index: usize) -> Option<SlotName<'_>>
    ensures { option_map name_text result ≡ slice_get (struct_names (fields_of fields.now)) index }
{
    if index == fields.len() {
        return Some(SlotName::Named("validity"));
    }
    match fields.get(index) {
        Some(field) => Some(field_slot(field.name.as_str())),
        None => None,
    }
}

/// Returns the name of slot `index` of a column of type `dtype`, a struct.
fn field_or_validity(dtype: &DType, index: usize) -> Option<SlotName<'_>>
    ensures { option_map name_text result ≡ struct_name (type_of dtype.now) index }
{
    match dtype {
        DType::Struct(fields, _) => field_slot_at(fields.as_slice(), index),
        _ => None,
    }
}

/// Returns the name of slot `index` of a node of this encoding and of type `dtype`: a line for each encoding.
fn name_of<'a>(encoding: &'a Encoding, dtype: &'a DType, index: usize) -> Option<SlotName<'a>>
    ensures { option_map name_text result ≡ (meaning (data_of encoding.now)).name (type_of dtype.now) index }
{
    match encoding {
        Encoding::Constant(_) => None,
        Encoding::Slice(_) => named(&["child"], index),
        Encoding::Filter(_) => named(&["child"], index),
        Encoding::Masked(_) => named(&["child", "validity"], index),
        Encoding::ScalarFnValidity(_) => named(&["child"], index),
        Encoding::ScalarFn(data) => whole(data.scalar_fn.child_name(index)),
        Encoding::Dict(_) => named(&["codes", "values"], index),
        Encoding::Chunked(_) => Some(SlotName::Numbered("chunk", index)),
        Encoding::Interleave(_) => Some(interleaved(index)),
        Encoding::Null(_) => None,
        Encoding::Bool(_) => named(&["validity"], index),
        Encoding::Primitive(_) => named(&["validity"], index),
        Encoding::Decimal(_) => named(&["validity"], index),
        Encoding::VarBinView(_) => named(&["validity"], index),
        Encoding::Struct(_) => field_or_validity(dtype, index),
        Encoding::Extension(_) => named(&["storage"], index),
    }
}

impl ArrayRef {
    /// Returns the number of rows.
    pub fn len(&self) -> usize
        ensures { result ≡ len self.now }
    {
        self.node.len
    }

    /// Returns whether there are no rows.
    pub fn is_empty(&self) -> bool
        ensures { result ≡ (len self.now == 0) }
    {
        self.node.len == 0
    }

    /// Returns the type of the rows.
    pub fn dtype(&self) -> &DType
        ensures dtype { type_of result.now ≡ dtype self.now }
        ensures columns { has_columns (dtype self.now) ≡ true }
    {
        &self.node.dtype
    }

    /// Returns the data of the root.
    pub fn encoding(&self) -> &Encoding
        ensures { data_of result.now ≡ datum self.now }
    {
        &self.node.encoding
    }

    /// Returns the id of the root's encoding, or of its function if it is a function node.
    pub fn encoding_id(&self) -> Id
        ensures { result ≡ id_of (datum self.now) }
    {
        match &self.node.encoding {
            Encoding::Constant(_) => Id::Constant,
            Encoding::Slice(_) => Id::Slice,
            Encoding::Filter(_) => Id::Filter,
            Encoding::Masked(_) => Id::Masked,
            Encoding::ScalarFnValidity(_) => Id::ScalarFnValidity,
            Encoding::ScalarFn(data) => data.scalar_fn.id(),
            Encoding::Dict(_) => Id::Dict,
            Encoding::Chunked(_) => Id::Chunked,
            Encoding::Interleave(_) => Id::Interleave,
            Encoding::Null(_) => Id::Null,
            Encoding::Bool(_) => Id::Bool,
            Encoding::Primitive(_) => Id::Primitive,
            Encoding::Decimal(_) => Id::Decimal,
            Encoding::VarBinView(_) => Id::VarBinView,
            Encoding::Struct(_) => Id::Struct,
            Encoding::Extension(_) => Id::Extension,
        }
    }

    /// Returns the slots of the root, in order.
    pub fn slots(&self) -> &[Option<ArrayRef>]
        ensures { slots_of result.now ≡ slots self.now }
    {
        &self.node.slots
    }

    /// Returns the name of the root's slot `index`, counted from 0. A node with one child has `child`, a masked array has
    /// `child` and `validity`, a column has `validity`, a dictionary has `codes` and `values`, and a function node has the
    /// names of its arguments. Chunks are numbered from `chunk0` on; an interleaved array has `array_indices`, `row_indices`
    /// and then its values from `value0` on. `None` if there is no such slot.
    #[tactic(auto, using(crate::proofs::SlotsLemmas::names))]
    pub fn slot_name(&self, index: usize) -> Option<SlotName<'_>>
        ensures { option_map name_text result ≡ name_at index self.now }
    {
        if index < self.slots().len() {
            name_of(self.encoding(), self.dtype(), index)
        } else {
            None
        }
    }

    /// States what holds of every tree: it is well formed, its meaning has one cell per row, and there are columns of its
    /// type. (own)
    #[tactic(auto, using(crate::proofs::CellsLemmas::rows_counted))]
    pub fn well_formed_tree(&self)
        ensures formed { IsWell self.now }
        ensures counted { length (rows self.now) ≡ len self.now }
        ensures supported { has_columns (dtype self.now) ≡ true }
    {
        let _well = &self.node;
    }

    /// Returns whether `M` matches the tree.
    pub fn is<M: Matcher>(&self) -> bool
        ensures { result ≡ M.fits self.now }
    {
        M::matches(self)
    }

    /// Returns a view of the root, or `None` if it isn't of `V`'s encoding.
    pub fn as_opt<V: EncodingVariant>(&self) -> Option<ArrayView<'_, V>>
        ensures which { is_some result ≡ V.is_kind (datum self.now) }
        ensures of { IfSome result (λ v. v.array.now ≡ self.now) }
    {
        match V::project(self.encoding()) {
            Some(payload) => Some(ArrayView::new(self, payload)),
            None => None,
        }
    }
}
