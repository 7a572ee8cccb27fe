//! Columns of text and of bytes.

ghost use Rattle.std.specs.Prelude.{refl, ◌≡◌, ◌⊎◌, IfOk, IfErr, OnOk, Some, None, length};
ghost use Rattle.vx_value.specs.Errors.{OnlyOutOfMemory};
ghost use Rattle.vx_tree.specs.Tree.{views, is_views, column};
ghost use Rattle.vx_value.specs.Nullabilities.{with_nullability};
ghost use Rattle.vx_value.specs.View.{type_of};
ghost use Rattle.vx_value.specs.declared.id.Id.TheVariants as id;
ghost use Rattle.vx_tree.specs.ColumnTypes.{bytes_type, are_bytes_of, are_views_of};
ghost use Rattle.vx_tree.specs.Validities.{child_of, bytes_refusal};
ghost use Rattle.vx_tree.specs.Views.{rows_of};

use crate::array::{
    Array, ArrayId, ArrayKind, ArrayParts, Encoded, Encoding, EncodingKind, EncodingVariant, Node,
    VTable,
};
use crate::arrays::column::{check_column, check_flat_column, flat_unchecked};
use crate::arrays::{into_payload, payload};
use crate::conditions::check_that;
use crate::validity::Validity;
use crate::views::BinaryViews;
use std::alloc::Global;
use vx_value::{ArgKind, DType, Id, Nullability, Storage, VortexError, VortexResult};

/// The tag of the encoding of text and bytes.
#[derive(Clone, Copy, Debug)]
pub struct VarBinView;

impl EncodingKind for VarBinView {
    #[tactic(auto, using(crate::proofs::KindsLemmas::kind_flat))]
    fn kind<'a>(node: &'a Node, payload: &'a VarBinViewData) -> ArrayKind<'a> {
        ArrayKind::VarBinView(&payload.rows, &node.slots[0])
    }
}

/// The data of a column of text or bytes: a view of each row's bytes, also if the row is null. Those of text are UTF-8.
#[derive(Clone, Debug, Drop)]
pub struct VarBinViewData {
    pub rows: BinaryViews,
}

impl Encoded for VarBinView {
    type TypedArrayData = VarBinViewData;
}

impl EncodingVariant for VarBinView {
    fn wrap(payload: VarBinViewData) -> Encoding {
        Encoding::VarBinView(payload)
    }

    ghost stands_for = { λ d. views d.rows };

    ghost is_kind = { is_views };

    fn project(encoding: &Encoding) -> Option<&VarBinViewData> {
        payload!(encoding, VarBinView)
    }

    fn into_data(encoding: Encoding) -> Option<VarBinViewData> {
        into_payload!(encoding, VarBinView)
    }

    ghost kind_of = { λ d. refl };
}

/// A column of text or of bytes.
pub type VarBinViewArray = Array<VarBinView>;

impl VTable for VarBinView {
    ghost named = { λ _. id.VarBinView };

    fn id(&self) -> ArrayId {
        Id::VarBinView
    }

    fn tag(_payload: &VarBinViewData) -> VarBinView {
        VarBinView
    }

    #[tactic(auto, using(crate::proofs::ConditionsLemmas::in_turn))]
    fn validate(_alloc: Global, parts: &ArrayParts<VarBinView>) -> VortexResult<()> {
        let storage = parts.dtype.storage();
        let rows = &parts.payload.rows;
        check_column(parts, &plain_type(storage), rows.len())?;
        check_that(are_bytes_of(storage, rows), ArgKind::BadValue)
    }
}

/// Returns the type of text or bytes; `storage` says which. (own)
pub fn bytes_type(storage: Storage, nullability: Nullability) -> DType
    ensures typed { type_of result ≡ with_nullability nullability (bytes_type storage) }
    ensures plain { nullability ≡ Nullability.NonNullable → type_of result ≡ bytes_type storage }
{
    match storage {
        Storage::Text => DType::Utf8(nullability),
        _ => DType::Binary(nullability),
    }
}

/// Returns the non-nullable type of text or bytes; `storage` says which.
fn plain_type(storage: Storage) -> DType
    ensures { type_of result ≡ bytes_type storage }
{
    bytes_type(storage, Nullability::NonNullable)
}

/// Returns whether `rows` are values of `storage`: if it is text, whether each is UTF-8.
fn are_bytes_of(storage: Storage, rows: &BinaryViews) -> bool
    ensures bytes { result ≡ are_bytes_of storage (rows_of rows.now) }
    ensures views { result ≡ are_views_of storage rows.now }
{
    rows.lie_in_buffers();
    match storage {
        Storage::Text => rows.is_utf8(),
        _ => true,
    }
}

impl VarBinViewArray {
    /// Makes the column of `rows`; `validity` says which rows are null. The bytes of null rows are ignored, except that those
    /// of text must be UTF-8.
    ///
    /// The first condition that fails gives the error: `InvalidArgument` with `BadType` exactly if `dtype` isn't a type of text
    /// or bytes with the nullability of `validity`, with `SlotType` exactly if the validity's array doesn't hold non-nullable
    /// booleans, with `SlotLen` exactly if it doesn't have as many rows as there are rows of bytes, and with `BadValue` exactly
    /// if `dtype` is a type of text and a row isn't UTF-8.
    #[tactic(auto, using(crate::proofs::ConditionsLemmas::in_turn))]
    pub fn try_new(
        alloc: Global,
        dtype: DType,
        rows: BinaryViews,
        validity: &Validity,
    ) -> VortexResult<VarBinViewArray>
        ensures ok { IfOk result (λ a. a ≡ column (type_of dtype) (length rows.views) (views rows) (child_of validity.now (length rows.views))) }
        ensures valid { OnOk result (bytes_refusal (type_of dtype) rows validity.now ≡ None) }
        ensures refused { IfErr result (λ e. (e ≡ VortexError.OutOfMemory) ⊎ (bytes_refusal (type_of dtype) rows validity.now ≡ Some e)) }
    {
        let storage = dtype.storage();
        check_flat_column(alloc, &dtype, &plain_type(storage), rows.len(), validity)?;
        check_that(are_bytes_of(storage, &rows), ArgKind::BadValue)?;
        VarBinViewArray::new_unchecked(alloc, dtype, rows, validity)
    }

    /// Makes the column of `rows`, which `try_new` must not refuse. Doesn't read the rows. Fails only with `OutOfMemory`.
    pub fn new_unchecked(
        alloc: Global,
        dtype: DType,
        rows: BinaryViews,
        validity: &Validity,
    ) -> VortexResult<VarBinViewArray>
        requires { bytes_refusal (type_of dtype) rows validity.now ≡ None }
        ensures ok { IfOk result (λ a. a ≡ column (type_of dtype) (length rows.views) (views rows) (child_of validity.now (length rows.views))) }
        ensures err { OnlyOutOfMemory result }
    {
        rows.lie_in_buffers();
        let len = rows.len();
        flat_unchecked(alloc, dtype, len, VarBinViewData { rows }, validity)
    }
}
