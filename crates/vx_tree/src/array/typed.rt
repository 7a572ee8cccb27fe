//! Handles that know their encoding.

ghost use Rattle.std.specs.Prelude.{◌≡◌, ◌⊎◌, ◌==◌, [], ◌∷◌, is_ok, IfOk, IfErr, OnOk, Some, None, true, false};
ghost use Rattle.vx_value.specs.Errors.{OnlyOutOfMemory};
ghost use Rattle.vx_value.specs.View.{type_of};
ghost use Rattle.vx_tree.specs.Tree.{Tree, dtype, len, datum, slots, slots_of, node, id_of};
ghost use Rattle.vx_tree.specs.Well.{shapes, IsNode};
ghost use Rattle.vx_tree.specs.Refusals.{refusal};
ghost use Rattle.vx_value.specs.Supported.{has_columns};

use crate::array::{ArrayRef, ArrayView, Encoded, Node, VTable};
use std::alloc::{AllocError, Global};
use std::marker::{Model, PhantomData};
use std::ops::Deref;
use std::rc::Rc;
use vx_value::{ArgKind, DType, VortexError, VortexResult, has_columns};

/// A handle of a node of `V`'s encoding. It shares the node with its reference.
#[derive(Drop)]
#[derive_where(Debug)]
pub struct Array<V: VTable> {
    array: ArrayRef,
    #[derive_where(skip(Debug))]
    tag: PhantomData<V>,
}

impl<V: VTable> Model for Array<V> {
    ghost use Rattle.std.specs.Prelude.{◌≡◌, true};
    ghost use Rattle.vx_tree.specs.Tree.{Tree, coded_tree, datum};

    ghost Value = { Tree };

    ghost coded = { coded_tree };

    ghost view = { λ a. a.array };

    ghost invariant = { λ a. V.is_kind (datum a.array) ≡ true };
}

impl<V: VTable> Clone for Array<V> {
    ghost is_clone = { λ a b. b ≡ a };

    fn clone(&self) -> Result<Array<V>, AllocError> {
        Ok(Array {
            array: self.array.clone()?,
            tag: PhantomData,
        })
    }
}

/// The parts of a node of `V`'s encoding.
#[derive(Drop)]
pub struct ArrayParts<V: Encoded> {
    pub vtable: V,
    pub dtype: DType,
    /// The number of rows.
    pub len: usize,
    pub payload: V::TypedArrayData,
    pub slots: Vec<Option<ArrayRef>>,
}

impl<V: Encoded> ArrayParts<V> {
    /// Returns the parts, which aren't checked.
    pub fn new(
        vtable: V,
        dtype: DType,
        len: usize,
        payload: V::TypedArrayData,
        slots: Vec<Option<ArrayRef>>,
    ) -> ArrayParts<V>
        ensures { result ≡ record { vtable = vtable; dtype = dtype; len = len; payload = payload; slots = slots } }
    {
        ArrayParts {
            vtable,
            dtype,
            len,
            payload,
            slots,
        }
    }
}

impl<V: VTable> Array<V> {
    /// Makes the node of `parts`. `InvalidArgument` with `BadType` if their type has no columns, else the error of
    /// `VTable::validate` if they break a condition of the encoding.
    pub fn try_from_parts(alloc: Global, parts: ArrayParts<V>) -> VortexResult<Array<V>>
        ensures ok { IfOk result (λ a. a ≡ node (type_of parts.dtype) parts.len (V.stands_for parts.payload) (slots_of parts.slots.items)) }
        ensures valid { OnOk result (refusal (V.named parts.vtable) (type_of parts.dtype) parts.len
            (V.stands_for parts.payload) (shapes (slots_of parts.slots.items)) ≡ None) }
        ensures supported { OnOk result (has_columns (type_of parts.dtype) ≡ true) }
        ensures refused { IfErr result (λ e. (e ≡ VortexError.OutOfMemory)
            ⊎ ((e ≡ VortexError.InvalidArgument ArgKind.BadType) × (has_columns (type_of parts.dtype) ≡ false))
            ⊎ (refusal (V.named parts.vtable) (type_of parts.dtype) parts.len
            (V.stands_for parts.payload) (shapes (slots_of parts.slots.items)) ≡ Some e)) }
    {
        if !has_columns(&parts.dtype) {
            return Err(VortexError::InvalidArgument(ArgKind::BadType));
        }
        Array::validated(alloc, parts)
    }

    /// Makes the node of `parts`, whose type must have columns. Refuses with the error of `VTable::validate` if they break a
    /// condition of the encoding.
    #[tactic(auto, using(crate::proofs::RefusedExactlyLemmas::node_unless_refused))]
    pub(crate) fn validated(alloc: Global, parts: ArrayParts<V>) -> VortexResult<Array<V>>
        requires { has_columns (type_of parts.dtype) ≡ true }
        ensures ok { IfOk result (λ a. a ≡ node (type_of parts.dtype) parts.len (V.stands_for parts.payload) (slots_of parts.slots.items)) }
        ensures valid { OnOk result (refusal (V.named parts.vtable) (type_of parts.dtype) parts.len
            (V.stands_for parts.payload) (shapes (slots_of parts.slots.items)) ≡ None) }
        ensures refused { IfErr result (λ e. (e ≡ VortexError.OutOfMemory)
            ⊎ (refusal (V.named parts.vtable) (type_of parts.dtype) parts.len
            (V.stands_for parts.payload) (shapes (slots_of parts.slots.items)) ≡ Some e)) }
    {
        V::validate(alloc, &parts)?;
        Ok(Array::from_parts_unchecked(alloc, parts)?)
    }

    /// Makes the node of `parts` without checking them. They must meet the conditions of the encoding, and
    /// their type must have columns. Fails only with `OutOfMemory`.
    pub fn from_parts_unchecked(alloc: Global, parts: ArrayParts<V>) -> VortexResult<Array<V>>
        requires node { IsNode (type_of parts.dtype) parts.len (V.stands_for parts.payload) (shapes (slots_of parts.slots.items)) }
        requires supported { has_columns (type_of parts.dtype) ≡ true }
        ensures ok { IfOk result (λ a. a ≡ node (type_of parts.dtype) parts.len (V.stands_for parts.payload) (slots_of parts.slots.items)) }
        ensures err { OnlyOutOfMemory result }
    {
        Array::of(alloc, parts.dtype, parts.len, parts.payload, parts.slots)
    }

    /// Makes the node of these parts, which must meet the conditions of the encoding. Fails only with `OutOfMemory`.
    pub(crate) fn of(
        alloc: Global,
        dtype: DType,
        len: usize,
        payload: V::TypedArrayData,
        slots: Vec<Option<ArrayRef>>,
    ) -> VortexResult<Array<V>>
        requires node { IsNode (type_of dtype) len (V.stands_for payload) (shapes (slots_of slots.items)) }
        requires supported { has_columns (type_of dtype) ≡ true }
        ensures ok { IfOk result (λ a. a ≡ node (type_of dtype) len (V.stands_for payload) (slots_of slots.items)) }
        ensures err { OnlyOutOfMemory result }
    {
        let node = Node {
            dtype,
            len,
            encoding: V::wrap(payload),
            slots,
        };
        Ok(Array {
            array: node.into_array(alloc)?,
            tag: PhantomData,
        })
    }

    /// Makes the node of these parts, which must meet the conditions of the encoding, and one slot. Fails only with
    /// `OutOfMemory`. (own)
    pub fn over(
        alloc: Global,
        dtype: DType,
        len: usize,
        payload: V::TypedArrayData,
        slot: Option<ArrayRef>,
    ) -> VortexResult<Array<V>>
        requires node { IsNode (type_of dtype) len (V.stands_for payload) (shapes (slots_of (slot ∷ []))) }
        requires supported { has_columns (type_of dtype) ≡ true }
        ensures ok { IfOk result (λ a. a ≡ node (type_of dtype) len (V.stands_for payload) (slots_of (slot ∷ []))) }
        ensures err { OnlyOutOfMemory result }
    {
        let slots = vec![in alloc; slot]?;
        Array::of(alloc, dtype, len, payload, slots)
    }

    /// Returns the handle of `array`'s node. Hands `array` back if it has another encoding.
    pub fn try_from_array_ref(array: ArrayRef) -> Result<Array<V>, ArrayRef>
        ensures which { is_ok result ≡ V.is_kind (datum array) }
        ensures ok { IfOk result (λ a. a ≡ array) }
        ensures err { IfErr result (λ a. a ≡ array) }
    {
        if V::project(array.encoding()).is_some() {
            Ok(Array {
                array,
                tag: PhantomData,
            })
        } else {
            Err(array)
        }
    }

    /// Returns the parts of the node. Hands the handle back if the node is shared.
    pub fn try_into_parts(self) -> Result<ArrayParts<V>, Array<V>>
        ensures named { IfOk result (λ p. V.named p.vtable ≡ id_of (datum self)) }
        ensures ok { IfOk result (λ p. node (type_of p.dtype) p.len (V.stands_for p.payload) (slots_of p.slots.items) ≡ self) }
        ensures err { IfErr result (λ a. a ≡ self) }
    {
        let Array { array, tag } = self;
        match array.try_into_node() {
            Ok(
                Node {
                    dtype,
                    len,
                    encoding,
                    slots,
                },
            ) => {
                let Some(payload) = V::into_data(encoding) else {
                    unreachable!()
                };
                Ok(ArrayParts {
                    vtable: V::tag(&payload),
                    dtype,
                    len,
                    payload,
                    slots,
                })
            }
            Err(array) => Err(Array { array, tag }),
        }
    }

    /// Returns the reference of the node that `shared` holds. Fails only with `OutOfMemory`: if `shared` has other owners and
    /// `Rc` refuses one more reference to the node. (own)
    pub fn shared_into_array(shared: Rc<Array<V>>) -> VortexResult<ArrayRef>
        ensures ok { IfOk result (λ a. a ≡ shared.value) }
        ensures err { OnlyOutOfMemory result }
    {
        match Rc::try_unwrap(shared) {
            Ok(handle) => Ok(handle.array),
            Err(shared) => Ok(shared.array.clone()?),
        }
    }

    /// Returns the data of the node.
    pub fn data(&self) -> &V::TypedArrayData
        ensures { V.stands_for result.now ≡ datum self.now }
    {
        let Some(payload) = V::project(self.array.encoding()) else {
            unreachable!()
        };
        payload
    }

    /// Returns the reference of the node.
    pub fn as_array(&self) -> &ArrayRef
        ensures of { result.now ≡ self.now }
        ensures kind { V.is_kind (datum self.now) ≡ true }
    {
        &self.array
    }

    /// Returns a view of the node.
    pub fn as_view(&self) -> ArrayView<'_, V>
        ensures { result.array.now ≡ self.now }
    {
        ArrayView::new(&self.array, self.data())
    }

    /// Returns the number of rows.
    pub fn len(&self) -> usize
        ensures { result ≡ len self.now }
    {
        self.array.len()
    }

    /// Returns whether there are no rows.
    pub fn is_empty(&self) -> bool
        ensures { result ≡ (len self.now == 0) }
    {
        self.array.is_empty()
    }

    /// Returns the type of the rows.
    pub fn dtype(&self) -> &DType
        ensures dtype { type_of result.now ≡ dtype self.now }
        ensures columns { has_columns (dtype self.now) ≡ true }
    {
        self.array.dtype()
    }

    /// Returns the slots of the node, in order.
    pub fn slots(&self) -> &[Option<ArrayRef>]
        ensures { slots_of result.now ≡ slots self.now }
    {
        self.array.slots()
    }
}

impl<V: VTable> Deref for Array<V> {
    type Target = V::TypedArrayData;

    ghost deref_gives = { λ a d. V.stands_for d ≡ datum a };

    fn deref(&self) -> &V::TypedArrayData {
        self.data()
    }
}

impl<V: VTable> AsRef<ArrayRef> for Array<V> {
    fn as_ref(&self) -> &ArrayRef
        ensures { result.now ≡ self.now }
    {
        &self.array
    }
}

impl<V: VTable> From<Array<V>> for ArrayRef {
    ghost from_gives = { λ a r. r ≡ a };

    fn from(handle: Array<V>) -> ArrayRef {
        handle.array
    }
}

/// Types whose values are each one tree.
pub trait IntoArray {
    ghost tree_of: { Self → Tree };

    /// Returns the reference of the tree, without making a node.
    fn into_array(self) -> ArrayRef
        ensures { result ≡ tree_of self };
}

impl IntoArray for ArrayRef {
    ghost tree_of = { λ t. t };

    fn into_array(self) -> ArrayRef {
        self
    }
}

impl<V: VTable> IntoArray for Array<V> {
    ghost tree_of = { λ a. a };

    fn into_array(self) -> ArrayRef {
        self.array
    }
}
