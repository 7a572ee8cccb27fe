//! Columns of decimals.

ghost use Rattle.std.specs.Prelude.{refl, ◌≡◌, ◌⊎◌, IfOk, IfErr, OnOk, Some, None, length};
ghost use Rattle.vx_value.specs.Errors.{OnlyOutOfMemory};
ghost use Rattle.vx_tree.specs.DecimalNumbers.{numbers_of, decimal_type_of};
ghost use Rattle.vx_tree.specs.Tree.{decimals, is_decimals, column};
ghost use Rattle.vx_value.specs.View.{type_of};
ghost use Rattle.vx_value.specs.Storage.{storage_of};
ghost use Rattle.vx_value.specs.declared.id.Id.TheVariants as id;
ghost use Rattle.vx_tree.specs.ColumnTypes.{decimal_type, are_decimals_of};
ghost use Rattle.vx_tree.specs.Validities.{child_of, decimal_refusal};

use crate::array::{
    Array, ArrayId, ArrayKind, ArrayParts, Encoded, Encoding, EncodingKind, EncodingVariant, Node,
    VTable,
};
use crate::arrays::column::{check_column, check_flat_column, flat_unchecked};
use crate::arrays::{into_payload, payload};
use crate::conditions::check_that;
use crate::native::DecimalValues;
use crate::validity::Validity;
use std::alloc::Global;
use vx_value::{
    ArgKind, DType, DecimalDType, DecimalType, Id, Nullability, VortexError, VortexResult,
};

/// The tag of the decimal encoding.
#[derive(Clone, Copy, Debug)]
pub struct Decimal;

impl EncodingKind for Decimal {
    #[tactic(auto, using(crate::proofs::KindsLemmas::kind_flat))]
    fn kind<'a>(node: &'a Node, payload: &'a DecimalData) -> ArrayKind<'a> {
        ArrayKind::Decimal(&payload.values, &node.slots[0])
    }
}

/// The data of a column of decimals: for each row, also a null one, its number without the point, as an integer. The integers
/// are as narrow as the precision of the column's type allows.
#[derive(Clone, Debug, Drop)]
pub struct DecimalData {
    pub values: DecimalValues,
}

impl Encoded for Decimal {
    type TypedArrayData = DecimalData;
}

impl EncodingVariant for Decimal {
    fn wrap(payload: DecimalData) -> Encoding {
        Encoding::Decimal(payload)
    }

    ghost stands_for = { λ d. decimals (decimal_type_of d.values) (numbers_of d.values) };

    ghost is_kind = { is_decimals };

    fn project(encoding: &Encoding) -> Option<&DecimalData> {
        payload!(encoding, Decimal)
    }

    fn into_data(encoding: Encoding) -> Option<DecimalData> {
        into_payload!(encoding, Decimal)
    }

    ghost kind_of = { λ d. refl };
}

/// A column of decimals.
pub type DecimalArray = Array<Decimal>;

impl VTable for Decimal {
    ghost named = { λ _. id.Decimal };

    fn id(&self) -> ArrayId {
        Id::Decimal
    }

    fn tag(_payload: &DecimalData) -> Decimal {
        Decimal
    }

    #[tactic(auto, using(crate::proofs::ConditionsLemmas::in_turn))]
    fn validate(_alloc: Global, parts: &ArrayParts<Decimal>) -> VortexResult<()> {
        let values = &parts.payload.values;
        check_column(parts, &decimal_type(&parts.dtype), values.len())?;
        check_that(are_decimals_of(&parts.dtype, values), ArgKind::BadValue)
    }
}

/// Returns the non-nullable type of the decimals of `dtype`. If `dtype` isn't a type of decimals, returns one with a single
/// digit, which is never `dtype`. (own)
fn decimal_type(dtype: &DType) -> DType
    ensures { type_of result ≡ decimal_type (storage_of (type_of dtype.now)) }
{
    if let DType::Decimal(decimal, _) = dtype {
        return DType::Decimal(*decimal, Nullability::NonNullable);
    }
    let Ok(decimal) = DecimalDType::try_new(1, 0) else {
        unreachable!()
    };
    DType::Decimal(decimal, Nullability::NonNullable)
}

/// Returns whether `values` are numbers of type `dtype`: their width is its narrowest, and none has more digits.
fn are_decimals_of(dtype: &DType, values: &DecimalValues) -> bool
    ensures { result ≡ are_decimals_of (storage_of (type_of dtype.now)) (decimal_type_of values.now) (numbers_of values.now) }
{
    match dtype {
        DType::Decimal(decimal, _) => {
            let narrowest = DecimalType::smallest_decimal_value_type(decimal);
            values.values_type() == narrowest && values.has_digits(decimal)
        }
        _ => false,
    }
}

impl DecimalArray {
    /// Makes the column of `values`, numbers of type `dtype` without their points; `validity` says which rows are null. The
    /// numbers of null rows are ignored, except that they must be of the type.
    ///
    /// The first condition that fails gives the error: `InvalidArgument` with `BadType` exactly if `dtype` isn't a type of
    /// decimals with the nullability of `validity`, with `SlotType` exactly if the validity's array doesn't hold non-nullable
    /// booleans, with `SlotLen` exactly if it doesn't have as many rows as there are values, and with `BadValue` exactly if the
    /// values aren't as narrow as the precision allows, or one has more digits.
    #[tactic(auto, using(crate::proofs::ConditionsLemmas::in_turn))]
    pub fn try_new(
        alloc: Global,
        dtype: DType,
        values: DecimalValues,
        validity: &Validity,
    ) -> VortexResult<DecimalArray>
        ensures ok { IfOk result (λ a. a ≡ column (type_of dtype) (length (numbers_of values)) (decimals (decimal_type_of values) (numbers_of values))
            (child_of validity.now (length (numbers_of values)))) }
        ensures valid { OnOk result (decimal_refusal (type_of dtype) (decimal_type_of values) (numbers_of values) validity.now ≡ None) }
        ensures refused { IfErr result (λ e. (e ≡ VortexError.OutOfMemory)
            ⊎ (decimal_refusal (type_of dtype) (decimal_type_of values) (numbers_of values) validity.now ≡ Some e)) }
    {
        check_flat_column(alloc, &dtype, &decimal_type(&dtype), values.len(), validity)?;
        check_that(are_decimals_of(&dtype, &values), ArgKind::BadValue)?;
        DecimalArray::new_unchecked(alloc, dtype, values, validity)
    }

    /// Makes the column of `values`, which `try_new` must not refuse. Doesn't read the values. Fails only with `OutOfMemory`.
    pub fn new_unchecked(
        alloc: Global,
        dtype: DType,
        values: DecimalValues,
        validity: &Validity,
    ) -> VortexResult<DecimalArray>
        requires { decimal_refusal (type_of dtype) (decimal_type_of values) (numbers_of values) validity.now ≡ None }
        ensures ok { IfOk result (λ a. a ≡ column (type_of dtype) (length (numbers_of values)) (decimals (decimal_type_of values) (numbers_of values))
            (child_of validity.now (length (numbers_of values)))) }
        ensures err { OnlyOutOfMemory result }
    {
        let len = values.len();
        flat_unchecked(alloc, dtype, len, DecimalData { values }, validity)
    }
}
