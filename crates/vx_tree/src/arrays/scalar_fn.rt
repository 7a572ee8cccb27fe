//! Lazy functions of other arrays.

ghost use Rattle.std.specs.Prelude.{◌≡◌, refl, ◌⊎◌, ◌++◌, map, IfOk, IfErr, OnOk, Some, None, true};
ghost use Rattle.vx_tree.specs.Tree.{function, is_function, slots_of, filled_slots, arity_refusal, slots_refusal, types_refusal, result_refusal, all_present, all_long, types_in};
ghost use Rattle.vx_value.specs.View.{type_of};
ghost use Rattle.vx_value.specs.Supported.{has_columns};
ghost use Rattle.vx_tree.specs.Conditions.{Checks};
ghost use Rattle.vx_tree.specs.Well.{shapes};
ghost use Rattle.vx_tree.specs.Refusals.{is_long, type_in};
ghost use Rattle.vx_tree.specs.Calls.{row_refusal, call_refusal, inferred_refusal, called, inferred};
ghost use Rattle.vx_fn.specs.ReturnTypes.{return_type};

use crate::array::{
    Array, ArrayId, ArrayKind, ArrayParts, ArrayRef, Encoded, Encoding, EncodingKind,
    EncodingVariant, Node, VTable,
};
use crate::arrays::{into_payload, payload};
use crate::conditions::check_that;
use crate::types::is_same_type;
use std::alloc::{AllocError, Global};
use vx_fn::{Arity, ScalarFnRef};
use vx_value::{ArgKind, DType, VortexError, VortexResult, has_columns};

/// The tag of the nodes of one function.
#[derive(Clone, Copy, Debug)]
pub struct ScalarFn {
    /// The id of the function.
    pub id: ArrayId,
}

impl EncodingKind for ScalarFn {
    fn kind<'a>(node: &'a Node, payload: &'a ScalarFnData) -> ArrayKind<'a> {
        ArrayKind::ScalarFn(&payload.scalar_fn, &node.slots)
    }
}

/// The data of a function node: the function.
#[derive(Clone, Debug, Drop)]
pub struct ScalarFnData {
    pub scalar_fn: ScalarFnRef,
}

impl ScalarFnData {
    /// Returns the data of a node that applies `scalar_fn`. (own)
    pub fn new(scalar_fn: ScalarFnRef) -> ScalarFnData
        ensures { result ≡ record { scalar_fn = scalar_fn } }
    {
        ScalarFnData { scalar_fn }
    }

    /// Returns the function of the node.
    pub fn scalar_fn(&self) -> &ScalarFnRef
        ensures { result.now ≡ self.now.scalar_fn }
    {
        &self.scalar_fn
    }
}

impl Encoded for ScalarFn {
    type TypedArrayData = ScalarFnData;
}

impl EncodingVariant for ScalarFn {
    fn wrap(payload: ScalarFnData) -> Encoding {
        Encoding::ScalarFn(payload)
    }

    ghost stands_for = { λ d. function d.scalar_fn };

    ghost is_kind = { is_function };

    fn project(encoding: &Encoding) -> Option<&ScalarFnData> {
        payload!(encoding, ScalarFn)
    }

    fn into_data(encoding: Encoding) -> Option<ScalarFnData> {
        into_payload!(encoding, ScalarFn)
    }

    ghost kind_of = { λ d. refl };
}

/// A lazy function, applied row by row to its children.
pub type ScalarFnArray = Array<ScalarFn>;

impl VTable for ScalarFn {
    ghost named = { λ tag. tag.id };

    fn id(&self) -> ArrayId {
        self.id
    }

    fn tag(payload: &ScalarFnData) -> ScalarFn {
        ScalarFn {
            id: payload.scalar_fn.id(),
        }
    }

    #[tactic(auto, using(crate::proofs::ConditionsLemmas::in_turn))]
    fn validate(alloc: Global, parts: &ArrayParts<ScalarFn>) -> VortexResult<()> {
        let function = &parts.payload.scalar_fn;
        check_slots(function, &parts.slots)?;
        check_types(alloc, parts.vtable.id, function, &parts.dtype, &parts.slots)?;
        check_that(are_long(parts.len, &parts.slots), ArgKind::ChildLen)
    }
}

/// Checks that each slot has a tree and that `function` takes that many arguments.
#[tactic(auto, using(crate::proofs::ConditionsLemmas::in_turn, crate::proofs::SlotsLemmas::count_slots))]
fn check_slots(function: &ScalarFnRef, slots: &[Option<ArrayRef>]) -> VortexResult<()>
    ensures { Checks result (slots_refusal function.now (shapes (slots_of slots.now))) }
{
    check_that(are_present(slots), ArgKind::FnSlotMissing)?;
    check_arity(function, slots.len())
}

/// Returns whether each slot has a tree.
fn are_present(slots: &[Option<ArrayRef>]) -> bool
    ensures { result ≡ all_present (shapes (slots_of slots.now)) }
{
    for slot in slots {
        if slot.is_none() {
            return false;
        }
    }
    true
}

/// Returns whether each tree in the slots has `len` rows.
fn are_long(len: usize, slots: &[Option<ArrayRef>]) -> bool
    ensures { result ≡ all_long len (shapes (slots_of slots.now)) }
{
    for slot in slots {
        if !has_length(slot, len) {
            return false;
        }
    }
    true
}

/// Returns whether `slot` has no tree, or one with `len` rows.
fn has_length(slot: &Option<ArrayRef>, len: usize) -> bool
    ensures { result ≡ is_long len slot.now }
{
    match slot {
        Some(child) => child.len() == len,
        None => true,
    }
}

/// Checks that `function` takes `count` arguments.
fn check_arity(function: &ScalarFnRef, count: usize) -> VortexResult<()>
    ensures { Checks result (arity_refusal function.now count) }
{
    let Arity::Exact(want) = function.arity();
    check_that(count == want, ArgKind::Arity { want, got: count })
}

/// Returns the types of the trees in the slots.
fn types_of(alloc: Global, slots: &[Option<ArrayRef>]) -> Result<Vec<DType>, AllocError>
    ensures { IfOk result (λ types. map type_of types.items ≡ types_in (shapes (slots_of slots.now))) }
{
    let mut types = Vec::with_capacity(alloc, slots.len())?;
    for slot in slots {
        push_type(&mut types, slot)?;
    }
    Ok(types)
}

/// Appends the type of the tree in `slot` if it has one.
fn push_type(types: &mut Vec<DType>, slot: &Option<ArrayRef>) -> Result<(), AllocError>
    ensures { OnOk result (map type_of types.new.items ≡ map type_of types.old.items ++ type_in slot.now) }
{
    match slot {
        Some(child) => Ok(types.push(child.dtype().clone()?)?),
        None => Ok(()),
    }
}

/// Checks that `tag` is the function's id, and that `function` has the result type `dtype` for arguments of the slots' types.
#[tactic(auto, using(crate::proofs::ConditionsLemmas::in_turn))]
fn check_types(
    alloc: Global,
    tag: ArrayId,
    function: &ScalarFnRef,
    dtype: &DType,
    slots: &[Option<ArrayRef>],
) -> VortexResult<()>
    ensures valid { OnOk result (types_refusal tag (type_of dtype.now) function.now (shapes (slots_of slots.now)) ≡ None) }
    ensures refused { IfErr result (λ e. (e ≡ VortexError.OutOfMemory)
        ⊎ (types_refusal tag (type_of dtype.now) function.now (shapes (slots_of slots.now)) ≡ Some e)) }
{
    check_that(tag == function.id(), ArgKind::NodeType)?;
    let types = types_of(alloc, slots)?;
    check_result(alloc, function, dtype, types.as_slice())
}

/// Checks that `function` has the result type `dtype` for arguments of these types.
fn check_result(
    alloc: Global,
    function: &ScalarFnRef,
    dtype: &DType,
    types: &[DType],
) -> VortexResult<()>
    ensures valid { OnOk result (result_refusal (type_of dtype.now) (return_type function.now (map type_of types.now)) ≡ None) }
    ensures refused { IfErr result (λ e. (e ≡ VortexError.OutOfMemory)
        ⊎ (result_refusal (type_of dtype.now) (return_type function.now (map type_of types.now)) ≡ Some e)) }
{
    check_that(
        is_same_type(dtype, &function.return_dtype(alloc, types)?),
        ArgKind::NodeType,
    )
}

/// Returns the type of the rows of `function` applied to the trees in `slots`. It must have columns.
fn column_dtype(
    alloc: Global,
    function: &ScalarFnRef,
    slots: &[Option<ArrayRef>],
) -> VortexResult<DType>
    ensures ok { IfOk result (λ t. return_type function.now (types_in (shapes (slots_of slots.now))) ≡ Some (type_of t)) }
    ensures columns { IfOk result (λ t. has_columns (type_of t) ≡ true) }
    ensures valid { OnOk result (row_refusal (return_type function.now (types_in (shapes (slots_of slots.now)))) ≡ None) }
    ensures refused { IfErr result (λ e. (e ≡ VortexError.OutOfMemory)
        ⊎ (row_refusal (return_type function.now (types_in (shapes (slots_of slots.now)))) ≡ Some e)) }
{
    let types = types_of(alloc, slots)?;
    let dtype = function.return_dtype(alloc, types.as_slice())?;
    check_that(has_columns(&dtype), ArgKind::BadType)?;
    Ok(dtype)
}

/// Puts each tree in a slot.
#[tactic(auto, using(crate::proofs::CallsLemmas::filled_more))]
fn fill_slots(alloc: Global, children: Vec<ArrayRef>) -> Result<Vec<Option<ArrayRef>>, AllocError>
    ensures { IfOk result (λ slots. slots_of slots.items ≡ filled_slots children.items) }
{
    let mut slots = Vec::with_capacity(alloc, children.len())?;
    for child in children {
        slots.push(Some(child))?;
    }
    Ok(slots)
}

impl ScalarFnArray {
    /// Makes a node that applies `scalar_fn` to `children`, with as many rows as the first child has.
    ///
    /// `InvalidArgument` with `NoChildren` if there are no children, else the errors of `try_new_with_len`.
    pub fn try_new(
        alloc: Global,
        scalar_fn: ScalarFnRef,
        children: Vec<ArrayRef>,
    ) -> VortexResult<ScalarFnArray>
        ensures ok { IfOk result (λ a. inferred scalar_fn children.items ≡ Some a) }
        ensures valid { OnOk result (inferred_refusal scalar_fn children.items ≡ None) }
        ensures refused { IfErr result (λ e. (e ≡ VortexError.OutOfMemory)
            ⊎ (inferred_refusal scalar_fn children.items ≡ Some e)) }
    {
        if children.is_empty() {
            return Err(VortexError::InvalidArgument(ArgKind::NoChildren));
        }
        let len = children[0].len();
        ScalarFnArray::try_new_with_len(alloc, scalar_fn, children, len)
    }

    /// Makes a node that applies `scalar_fn` to `children`, with `len` rows.
    ///
    /// The first condition that fails gives the error: `InvalidArgument` with `Arity` if the function takes another number of
    /// arguments, `ChildLen` if a child doesn't have `len` rows, `NoRow` if the function takes no arguments of their types, and
    /// `BadType` if its result has no columns.
    #[tactic(auto, using(crate::proofs::CallsLemmas::calls))]
    pub fn try_new_with_len(
        alloc: Global,
        scalar_fn: ScalarFnRef,
        children: Vec<ArrayRef>,
        len: usize,
    ) -> VortexResult<ScalarFnArray>
        ensures ok { IfOk result (λ a. called scalar_fn children.items len ≡ Some a) }
        ensures valid { OnOk result (call_refusal scalar_fn children.items len ≡ None) }
        ensures refused { IfErr result (λ e. (e ≡ VortexError.OutOfMemory)
            ⊎ (call_refusal scalar_fn children.items len ≡ Some e)) }
    {
        check_arity(&scalar_fn, children.len())?;
        let slots = fill_slots(alloc, children)?;
        check_that(are_long(len, slots.as_slice()), ArgKind::ChildLen)?;
        let dtype = column_dtype(alloc, &scalar_fn, slots.as_slice())?;
        Ok(Array::of(alloc, dtype, len, ScalarFnData { scalar_fn }, slots)?)
    }
}
