//! Borrowed nodes, with the data of their encoding.

ghost use Rattle.std.specs.Prelude.{◌≡◌, ◌==◌, IfOk, true};
ghost use Rattle.std.specs.Coded.{Coded-set};
ghost use Rattle.vx_value.specs.Errors.{OnlyOutOfMemory};
ghost use Rattle.vx_value.specs.View.{type_of};
ghost use Rattle.vx_value.specs.Supported.{has_columns};
ghost use Rattle.vx_tree.specs.Tree.{dtype, len, datum, slots, slots_of, id_of, coded_data};

use crate::array::{Array, ArrayRef, EncodingVariant, VTable};
use std::alloc::AllocError;
use std::ops::Deref;
use vx_value::{DType, Id, VortexResult};

/// A borrowed node of `V`'s encoding.
#[derive_where(Copy, Debug)]
pub struct ArrayView<'a, V: EncodingVariant> {
    array: &'a ArrayRef,
    #[derive_where(skip(Debug))]
    payload: &'a V::TypedArrayData,
    // the payload is the node's own data
    ghost own: { V.stands_for payload.now ≡ datum array.now } by { Coded-set coded_data _ _ },
}

impl<'a, V: EncodingVariant> Clone for ArrayView<'a, V> {
    ghost is_clone = { λ a b. b ≡ a };

    fn clone(&self) -> Result<ArrayView<'a, V>, AllocError> {
        Ok(*self)
    }
}

impl<'a, V: EncodingVariant> ArrayView<'a, V> {
    /// Returns the view of `array`'s node, whose data must be `payload`. (own)
    pub fn new(array: &'a ArrayRef, payload: &'a V::TypedArrayData) -> ArrayView<'a, V>
        requires { V.stands_for payload.now ≡ datum array.now }
        ensures { result.array.now ≡ array.now }
    {
        ArrayView { array, payload }
    }

    /// Returns the reference of the node.
    pub fn array(&self) -> &'a ArrayRef
        ensures of { result.now ≡ self.now.array.now }
        ensures kind { V.is_kind (datum result.now) ≡ true }
    {
        self.array
    }

    /// Returns the data of the node.
    pub fn data(&self) -> &'a V::TypedArrayData
        ensures { V.stands_for result.now ≡ datum self.now.array.now }
    {
        self.payload
    }

    /// Returns the slots of the node, in order.
    pub fn slots(&self) -> &'a [Option<ArrayRef>]
        ensures { slots_of result.now ≡ slots self.now.array.now }
    {
        self.array.slots()
    }

    /// Returns the type of the rows.
    pub fn dtype(&self) -> &'a DType
        ensures dtype { type_of result.now ≡ dtype self.now.array.now }
        ensures columns { has_columns (dtype self.now.array.now) ≡ true }
    {
        self.array.dtype()
    }

    /// Returns the number of rows.
    pub fn len(&self) -> usize
        ensures { result ≡ len self.now.array.now }
    {
        self.array.len()
    }

    /// Returns whether there are no rows.
    pub fn is_empty(&self) -> bool
        ensures { result ≡ (len self.now.array.now == 0) }
    {
        self.array.is_empty()
    }

    /// Returns the id of the node's encoding, or of its function if it is a function node.
    pub fn encoding_id(&self) -> Id
        ensures { result ≡ id_of (datum self.now.array.now) }
    {
        self.array.encoding_id()
    }
}

impl<'a, V: VTable> ArrayView<'a, V> {
    /// Returns an owned handle of the same node. Fails only with `OutOfMemory`: if `Rc` refuses one more reference
    /// to it.
    pub fn into_owned(self) -> VortexResult<Array<V>>
        ensures ok { IfOk result (λ a. a ≡ self.entry.array.now) }
        ensures err { OnlyOutOfMemory result }
    {
        match Array::<V>::try_from_array_ref(self.array.clone()?) {
            Ok(owned) => Ok(owned),
            Err(_) => unreachable!(),
        }
    }
}

impl<'a, V: EncodingVariant> AsRef<ArrayRef> for ArrayView<'a, V> {
    fn as_ref(&self) -> &ArrayRef
        ensures { result.now ≡ self.now.array.now }
    {
        self.array
    }
}

impl<'a, V: EncodingVariant> Deref for ArrayView<'a, V> {
    type Target = V::TypedArrayData;

    ghost deref_gives = { λ v d. V.stands_for d ≡ datum v.array.now };

    fn deref(&self) -> &V::TypedArrayData {
        self.payload
    }
}
