//! Equality, hashing and ordering of scalars, as in the original's `scalar` module.

ghost use Rattle.std.specs.Prelude.{◌≡◌, ◌↔◌, ◌⊎◌, IsTrue, IsSome, Some, true, false};
ghost use Rattle.std.specs.Cmp.{decided, partial_equiv_from_equiv};
ghost use Rattle.std.specs.Hash.{same_Alike};
ghost use Rattle.vx_value.specs.View.{cell_of, value_of, values_of};
ghost use Rattle.vx_value.specs.Storage.{is_nested};
ghost use Rattle.vx_value.specs.IsOf.{is_of};
ghost use Rattle.vx_value.specs.Order.{value_cmp, same_value, same_values, same_scalar, scalar_cmp, value_kind};
ghost use Rattle.vx_value.specs.Writes.{scalar_writes};
ghost use Rattle.vx_value.specs.OrderLaws.{same_scalar_Decides, scalar_cmp_order};

use crate::hashing::hash_value;
use crate::{Scalar, ScalarValue, Storage};
use std::cmp::Ordering;
use std::hash::{Hash, Hasher};

/// Scalars are equal if their types and their values are equal, part by part. Null equals null of the same type.
impl PartialEq for Scalar {
    ghost eq = { same_scalar };

    ghost laws = { partial_equiv_from_equiv (decided same_scalar same_scalar_Decides) };

    #[tactic(auto, using(crate::proofs::OrderLemmas::same_scalar_is))]
    fn eq(&self, other: &Scalar) -> bool
        ensures value { result ≡ same_scalar self.now other.now }
        ensures equal { IsTrue result ↔ (self.now ≡ other.now) }
    {
        *self.dtype() == *other.dtype() && same_cells(self.entry(), other.entry())
    }
}

impl Scalar {
    /// Checks whether two values are equal, part by part, whatever their types. Null equals null. (own)
    pub fn same_value(&self, other: &Scalar) -> bool
        ensures { result ≡ same_value self.now.value other.now.value }
    {
        same_cells(self.entry(), other.entry())
    }
}

impl Eq for Scalar {
    ghost laws = { decided same_scalar same_scalar_Decides };
}

impl Hash for Scalar {
    ghost hash_input = { scalar_writes };

    ghost respects_eq = { (same_Alike scalar_writes same_scalar_Decides).fed };

    fn hash<H: Hasher>(&self, state: &mut H) {
        self.dtype().hash(state);
        hash_value(self.entry(), state);
    }
}

/// Orders scalars of one type that isn't nested: null first, then `false` before `true`, numbers by size, and bytes in order. Of a
/// nested type only equal scalars compare. Returns `None` if the types differ.
impl PartialOrd for Scalar {
    ghost partial_cmp = { scalar_cmp };

    ghost laws = { scalar_cmp_order };

    #[tactic(auto, using(crate::proofs::OrderLemmas::scalar_cmp_is_some, crate::proofs::OrderLemmas::scalar_cmp_is_equal))]
    fn partial_cmp(&self, other: &Scalar) -> Option<Ordering>
        ensures value { result ≡ scalar_cmp self.now other.now }
        ensures compared { IsSome result
            ↔ ((self.now.of_type ≡ other.now.of_type) × ((is_nested self.now.of_type ≡ false) ⊎ (self.now ≡ other.now))) }
        ensures equal { (result ≡ Some Ordering.Equal) ↔ (self.now ≡ other.now) }
    {
        scalar_order(self, other)
    }
}

/// Compares two scalars.
fn scalar_order(left: &Scalar, right: &Scalar) -> Option<Ordering>
    ensures value { result ≡ scalar_cmp left.now right.now }
    ensures left_typed { is_of left.now.of_type left.now.value ≡ true }
    ensures right_typed { is_of right.now.of_type right.now.value ≡ true }
{
    let (dtype, value) = (left.dtype(), left.entry());
    let same = *dtype == *right.dtype();
    if !same {
        return None;
    }
    match dtype.storage() {
        Storage::Nested if same_cells(value, right.entry()) => Some(Ordering::Equal),
        Storage::Nested => None,
        _ => Some(value_order(value, right.entry())),
    }
}

/// Checks whether two values are the same. `None` is null.
#[cycle(values)]
fn same_cells(left: &Option<ScalarValue>, right: &Option<ScalarValue>) -> bool
    ensures { result ≡ same_value (cell_of left.now) (cell_of right.now) }
{
    match (left, right) {
        (None, None) => true,
        (Some(left), Some(right)) => same_present(left, right),
        _ => false,
    }
}

/// Checks whether two values that aren't null are the same.
#[cycle(values)]
#[tactic(auto, using(crate::proofs::OrderLemmas::decimals_same, crate::proofs::BytesLemmas::bytes_eq_by_cmp))]
fn same_present(left: &ScalarValue, right: &ScalarValue) -> bool
    ensures { result ≡ same_value (value_of left.now) (value_of right.now) }
{
    match (left, right) {
        (ScalarValue::Bool(left), ScalarValue::Bool(right)) => *left == *right,
        (ScalarValue::Integer(left), ScalarValue::Integer(right)) => *left == *right,
        (ScalarValue::Decimal(left), ScalarValue::Decimal(right)) => *left == *right,
        (ScalarValue::Bytes(left), ScalarValue::Bytes(right)) => *left == *right,
        (ScalarValue::List(left), ScalarValue::List(right)) => same_items(
            &left.items,
            &right.items,
        ),
        (ScalarValue::Struct(left), ScalarValue::Struct(right)) => {
            same_items(&left.items, &right.items)
        }
        (ScalarValue::Union(tag, left), ScalarValue::Union(other, right)) => {
            *tag == *other && same_cells(left, right)
        }
        (ScalarValue::Variant(dtype, left), ScalarValue::Variant(other, right)) => {
            **dtype == **other && same_cells(left, right)
        }
        _ => false,
    }
}

/// Checks whether two lists of values are the same. `None` is null.
#[cycle(values)]
#[tactic(auto, using(crate::proofs::OrderLemmas::items_at, crate::proofs::OrderLemmas::items_differ, crate::proofs::ValuesLemmas::item_lower))]
fn same_items(left: &[Option<ScalarValue>], right: &[Option<ScalarValue>]) -> bool
    ensures { result ≡ same_values (values_of left.now) (values_of right.now) }
{
    if left.len() != right.len() {
        return false;
    }
    for i in 0..left.len() {
        if !same_cells(&left[i], &right[i]) {
            return false;
        }
    }
    true
}

impl ScalarValue {
    /// Checks whether two values are equal, part by part, whatever their types. (own)
    pub fn same_value(&self, other: &ScalarValue) -> bool
        ensures { result ≡ same_value (value_of self.now) (value_of other.now) }
    {
        same_present(self, other)
    }
}

/// Compares two values that aren't nested. `None` is null.
///
/// No type has values of two kinds. They compare by their kinds, so that the order is total.
fn value_order(left: &Option<ScalarValue>, right: &Option<ScalarValue>) -> Ordering
    ensures { result ≡ value_cmp (cell_of left.now) (cell_of right.now) }
{
    match (left, right) {
        (Some(ScalarValue::Bool(left)), Some(ScalarValue::Bool(right))) => left.cmp(right),
        (Some(ScalarValue::Integer(left)), Some(ScalarValue::Integer(right))) => left.cmp(right),
        (Some(ScalarValue::Decimal(left)), Some(ScalarValue::Decimal(right))) => left.cmp(right),
        (Some(ScalarValue::Bytes(left)), Some(ScalarValue::Bytes(right))) => left.cmp(right),
        _ => kind(left).cmp(&kind(right)),
    }
}

/// Returns the place of a value's kind in the order; 0 for null, and for nested values, which aren't ordered.
fn kind(value: &Option<ScalarValue>) -> u8
    ensures { result ≡ value_kind (cell_of value.now) }
{
    match value {
        Some(ScalarValue::Bool(_)) => 1,
        Some(ScalarValue::Integer(_)) => 2,
        Some(ScalarValue::Decimal(_)) => 3,
        Some(ScalarValue::Bytes(_)) => 4,
        _ => 0,
    }
}
