//! Columns of structs.

ghost use Rattle.std.specs.Prelude.{refl, ℕ, ◌≡◌, ◌⊎◌, ◌≤◌, ◌++◌, ◌∷◌, [], length, map, IfOk, IfErr, OnOk, Some, None, option_map, ◌==◌, ◌+◌};
ghost use Rattle.vx_value.specs.Errors.{OnlyOutOfMemory};
ghost use Rattle.vx_value.specs.Types.{DataType};
ghost use Rattle.vx_value.specs.View.{type_of, fields_of};
ghost use Rattle.vx_value.specs.declared.id.Id.TheVariants as id;
ghost use Rattle.vx_tree.specs.Tree.{composed, is_struct, IsStruct, slots_of, fields_shapes, struct_slots_refusal, fields_refusal};
ghost use Rattle.vx_tree.specs.Structs.{struct_of, parts_refusal};
ghost use Rattle.vx_tree.specs.Conditions.{Checks, first_of_both, unless};
ghost use Rattle.vx_tree.specs.Well.{shape_of, shapes};
ghost use Rattle.vx_tree.specs.SlotShapes.{first_refusal};
ghost use Rattle.vx_tree.specs.Validities.{child_of};
ghost use Rattle.vx_tree.specs.declared.array.layout.Layout.TheVariants as layout;

use crate::array::{
    Array, ArrayId, ArrayKind, ArrayParts, ArrayRef, Encoded, Encoding, EncodingKind,
    EncodingVariant, Layout, Node, VTable,
};
use crate::arrays::column::{check_validity_len, check_validity_type};
use crate::arrays::scalar_fn_validity::EmptyArrayData;
use crate::arrays::slots::append_slots;
use crate::arrays::{into_payload, payload};
use crate::conditions::check_that;
use crate::replace::Kept;
use crate::validity::{Validity, validity_to_child};
use std::alloc::Global;
use vx_value::{ArgKind, DType, Field, Id, Nullability, VortexError, VortexResult, has_columns};

/// The tag of the encoding of structs.
#[derive(Clone, Copy, Debug)]
pub struct Struct;

impl EncodingKind for Struct {
    fn kind<'a>(node: &'a Node, _payload: &'a EmptyArrayData) -> ArrayKind<'a> {
        ArrayKind::Composed(Layout::Struct, &node.slots)
    }
}

impl Encoded for Struct {
    type TypedArrayData = EmptyArrayData;
}

impl EncodingVariant for Struct {
    fn wrap(payload: EmptyArrayData) -> Encoding {
        Encoding::Struct(payload)
    }

    ghost stands_for = { λ _. composed layout.Struct };

    ghost is_kind = { is_struct };

    fn project(encoding: &Encoding) -> Option<&EmptyArrayData> {
        payload!(encoding, Struct)
    }

    fn into_data(encoding: Encoding) -> Option<EmptyArrayData> {
        into_payload!(encoding, Struct)
    }

    ghost kind_of = { λ d. refl };
}

/// A column of structs: a column for each field, and a validity.
pub type StructArray = Array<Struct>;

impl VTable for Struct {
    ghost named = { λ _. id.Struct };

    fn id(&self) -> ArrayId {
        Id::Struct
    }

    fn tag(_payload: &EmptyArrayData) -> Struct {
        Struct
    }

    #[tactic(auto, using(crate::proofs::ConditionsLemmas::in_turn))]
    fn validate(_alloc: Global, parts: &ArrayParts<Struct>) -> VortexResult<()> {
        let DType::Struct(fields, nullability) = &parts.dtype else {
            return Err(VortexError::InvalidArgument(ArgKind::BadType));
        };
        check_slots(fields.as_slice(), *nullability, parts.len, &parts.slots)
    }
}

/// Checks that these slots are those of `len` rows of structs with these fields.
#[tactic(auto, using(crate::proofs::StructSlotsLemmas::by_slots))]
fn check_slots(
    fields: &[Field],
    nullability: Nullability,
    len: usize,
    slots: &[Option<ArrayRef>],
) -> VortexResult<()>
    ensures { Checks result (struct_slots_refusal (fields_of fields.now) nullability len (shapes (slots_of slots.now))) }
{
    let Some((validity, others)) = slots.split_last() else {
        return Err(VortexError::InvalidArgument(ArgKind::SlotCount));
    };
    check_split(fields, nullability, len, slots, others.len(), validity)
}

/// Does the same, given the number of slots before the last one, and that one.
#[tactic(auto, using(crate::proofs::ConditionsLemmas::in_turn))]
fn check_split(
    fields: &[Field],
    nullability: Nullability,
    len: usize,
    slots: &[Option<ArrayRef>],
    others: usize,
    validity: &Option<ArrayRef>,
) -> VortexResult<()>
    requires { length slots.now ≡ others + 1 }
    ensures { Checks result (first_of_both (unless (others == length fields.now) (VortexError.InvalidArgument ArgKind.SlotCount))
        (fields_refusal (fields_of fields.now) nullability len (shapes (slots_of slots.now)) (option_map shape_of validity.now))) }
{
    check_that(others == fields.len(), ArgKind::SlotCount)?;
    check_fields(fields, nullability, len, slots, validity)
}

/// Checks that the slots of the fields, and `validity` behind them, are those of `len` rows of structs with these fields.
#[tactic(auto, using(crate::proofs::ConditionsLemmas::in_turn, vx_value::proofs::NestedLemmas::fields_length))]
fn check_fields(
    fields: &[Field],
    nullability: Nullability,
    len: usize,
    slots: &[Option<ArrayRef>],
    validity: &Option<ArrayRef>,
) -> VortexResult<()>
    requires { length fields.now ≤ length slots.now }
    ensures { Checks result (fields_refusal (fields_of fields.now) nullability len (shapes (slots_of slots.now)) (option_map shape_of validity.now)) }
{
    check_each(Kept::Presence, fields, len, slots)?;
    check_each(Kept::Dtype, fields, len, slots)?;
    check_validity_type(nullability, validity, fields.len())?;
    check_each(Kept::Len, fields, len, slots)?;
    check_validity_len(len, validity, fields.len())
}

/// Checks that the slot of each field has what `kept` says of a column of the field's type with `len` rows.
fn check_each(
    kept: Kept,
    fields: &[Field],
    len: usize,
    slots: &[Option<ArrayRef>],
) -> VortexResult<()>
    requires { length fields.now ≤ length slots.now }
    ensures { Checks result (first_refusal kept 0 (fields_shapes len (fields_of fields.now)) (shapes (slots_of slots.now))) }
{
    for slot in 0..fields.len() {
        let fits = kept.is_shape(&fields[slot].dtype, len, &slots[slot]);
        check_that(fits, kept.wrong_in(slot))?;
    }
    Ok(())
}

impl StructArray {
    /// Makes the column of `len` structs of type `dtype`, with a column for each field in order; `validity` says which rows are null.
    ///
    /// The first condition that fails gives the error: `InvalidArgument` with `BadType` if `dtype` isn't a struct type that has columns
    /// and the nullability of `validity`, with `SlotCount` if there aren't as many columns as fields, with `SlotType` of the first
    /// column that isn't of its field's type, or else of the validity if its array doesn't hold non-nullable booleans, and with
    /// `SlotLen` of the first column, or else of the validity, that doesn't have `len` rows.
    #[tactic(auto, using(crate::proofs::ConditionsLemmas::in_turn))]
    pub fn try_new(
        alloc: Global,
        dtype: DType,
        len: usize,
        columns: Vec<ArrayRef>,
        validity: &Validity,
    ) -> VortexResult<StructArray>
        ensures ok { IfOk result (λ a. a ≡ struct_of (type_of dtype) len columns.items validity.now) }
        ensures valid { OnOk result (parts_refusal (type_of dtype) len columns.items validity.now ≡ None) }
        ensures refused { IfErr result (λ e. (e ≡ VortexError.OutOfMemory)
            ⊎ (parts_refusal (type_of dtype) len columns.items validity.now ≡ Some e)) }
    {
        let fits = dtype.nullability() == validity.nullability() && has_columns(&dtype);
        check_that(fits, ArgKind::BadType)?;
        let slots = make_slots(alloc, len, columns, validity)?;
        let parts = ArrayParts::new(Struct, dtype, len, EmptyArrayData, slots);
        Array::validated(alloc, parts)
    }
}

/// Returns the slots of `len` rows with these columns and this validity. Fails only with `OutOfMemory`.
fn make_slots(
    alloc: Global,
    len: usize,
    columns: Vec<ArrayRef>,
    validity: &Validity,
) -> VortexResult<Vec<Option<ArrayRef>>>
    ensures ok { IfOk result (λ slots. slots.items ≡ map Some columns.items ++ child_of validity.now len ∷ []) }
    ensures err { OnlyOutOfMemory result }
{
    let child = validity_to_child(alloc, validity, len)?;
    let mut slots = append_slots(Vec::new(alloc), columns)?;
    slots.push(child)?;
    Ok(slots)
}

/// Returns the slots of the fields, and that of the validity, of a column of structs with these slots. (own)
pub fn struct_slots(slots: &[Option<ArrayRef>]) -> (&[Option<ArrayRef>], &Option<ArrayRef>)
    requires { (ty : DataType) × (n : ℕ) × IsStruct ty n (shapes (slots_of slots.now)) }
    ensures { slots.now ≡ result.0.now ++ result.1.now ∷ [] }
{
    let Some((validity, fields)) = slots.split_last() else {
        unreachable!()
    };
    (fields, validity)
}
