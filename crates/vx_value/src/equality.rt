//! Equality of types.

ghost use Rattle.std.specs.Prelude.{◌≡◌, ◌↔◌, ◌==◌, ◌&&◌, IsTrue};
ghost use Rattle.std.specs.Cmp.{decided, partial_equiv_from_equiv};
ghost use Rattle.std.specs.Hash.{same_Alike, on_Alike};
ghost use Rattle.std.proofs.lemmas.Cmp.{on_equiv};
ghost use Rattle.vx_value.specs.Codes.{same_code, bytes_code};
ghost use Rattle.vx_value.specs.Sames.{same_variant};
ghost use Rattle.vx_value.specs.View.{type_of, fields_of, variants_of};
ghost use Rattle.vx_value.specs.Types.{same_type, same_type_Decides, same_fields, same_variants, nullability_code, ptype_code};
ghost use Rattle.vx_value.specs.Nullabilities.{with_nullability, same_but_nullability};
ghost use Rattle.vx_value.specs.Writes.{type_writes};

use crate::hashing::hash_type;
use crate::{DType, DecimalDType, Field, Name, Nullability, PType, UnionVariant};
use std::hash::{Hash, Hasher};

/// Types are equal if they have the same kind, parts and nullabilities, at each depth.
impl PartialEq for DType {
    ghost eq = { λ a b. same_type (type_of a) (type_of b) };

    ghost laws = { partial_equiv_from_equiv (on_equiv type_of (decided same_type same_type_Decides)) };

    #[tactic(auto, using(crate::proofs::SamesLemmas::types_equal))]
    fn eq(&self, other: &DType) -> bool
        ensures value { result ≡ same_type (type_of self.now) (type_of other.now) }
        ensures equal { IsTrue result ↔ (type_of self.now ≡ type_of other.now) }
    {
        same_types(self, other)
    }
}

impl Eq for DType {
    ghost laws = { on_equiv type_of (decided same_type same_type_Decides) };
}

impl Hash for DType {
    ghost hash_input = { λ d. type_writes (type_of d) };

    ghost respects_eq = { (on_Alike type_of (same_Alike type_writes same_type_Decides)).fed };

    fn hash<H: Hasher>(&self, state: &mut H) {
        hash_type(self, state)
    }
}

impl DType {
    /// Checks whether two types are the same apart from their own nullability. That of nested types counts; an extension's is its
    /// storage's.
    #[tactic(auto, using(crate::specs::Nullabilities::same_but_nullability_Decides))]
    pub fn eq_ignore_nullability(&self, other: &DType) -> bool
        ensures value { result ≡ same_but_nullability (type_of self.now) (type_of other.now) }
        ensures same { IsTrue result
            ↔ (with_nullability Nullability.NonNullable (type_of self.now) ≡ with_nullability Nullability.NonNullable (type_of other.now)) }
    {
        same_but_nullability(self, other)
    }
}

#[tactic(auto, using(crate::proofs::SamesLemmas::and_true, crate::proofs::SamesLemmas::entries_same))]
fn same_but_nullability(left: &DType, right: &DType) -> bool
    ensures { result ≡ same_but_nullability (type_of left.now) (type_of right.now) }
{
    match (left, right) {
        (DType::Null, DType::Null) => true,
        (DType::Bool(_), DType::Bool(_)) => true,
        (DType::Primitive(left, _), DType::Primitive(right, _)) => same_ptype(*left, *right),
        (DType::Decimal(left, _), DType::Decimal(right, _)) => same_decimal(*left, *right),
        (DType::Utf8(_), DType::Utf8(_)) => true,
        (DType::Binary(_), DType::Binary(_)) => true,
        (DType::List(left, _), DType::List(right, _)) => same_types(left, right),
        (DType::FixedSizeList(left, size, _), DType::FixedSizeList(right, other, _)) => {
            same_types(left, right) && *size == *other
        }
        (DType::Map(left, _), DType::Map(right, _)) => same_types(&left.entry, &right.entry),
        (DType::Struct(left, _), DType::Struct(right, _)) => same_fields(
            &left.fields,
            &right.fields,
        ),
        (DType::Union(left, _), DType::Union(right, _)) => {
            same_variants(&left.variants, &right.variants)
        }
        (DType::Variant(_), DType::Variant(_)) => true,
        (DType::Extension(left), DType::Extension(right)) => {
            same_name(&left.id, &right.id) && same_but_nullability(&left.storage, &right.storage)
        }
        _ => false,
    }
}

/// Checks whether two types are the same, including their nullability.
#[cycle(equality)]
#[tactic(auto, using(crate::proofs::SamesLemmas::entries_same))]
fn same_types(left: &DType, right: &DType) -> bool
    ensures { result ≡ same_type (type_of left.now) (type_of right.now) }
{
    match (left, right) {
        (DType::Null, DType::Null) => true,
        (DType::Bool(m), DType::Bool(n)) => same_nullability(*m, *n),
        (DType::Primitive(left, m), DType::Primitive(right, n)) => {
            same_ptype(*left, *right) && same_nullability(*m, *n)
        }
        (DType::Decimal(left, m), DType::Decimal(right, n)) => {
            same_decimal(*left, *right) && same_nullability(*m, *n)
        }
        (DType::Utf8(m), DType::Utf8(n)) => same_nullability(*m, *n),
        (DType::Binary(m), DType::Binary(n)) => same_nullability(*m, *n),
        (DType::List(left, m), DType::List(right, n)) => {
            same_types(left, right) && same_nullability(*m, *n)
        }
        (DType::FixedSizeList(left, size, m), DType::FixedSizeList(right, other, n)) => {
            same_types(left, right) && *size == *other && same_nullability(*m, *n)
        }
        (DType::Map(left, m), DType::Map(right, n)) => {
            same_types(&left.entry, &right.entry) && same_nullability(*m, *n)
        }
        (DType::Struct(left, m), DType::Struct(right, n)) => {
            same_fields(&left.fields, &right.fields) && same_nullability(*m, *n)
        }
        (DType::Union(left, m), DType::Union(right, n)) => {
            same_variants(&left.variants, &right.variants) && same_nullability(*m, *n)
        }
        (DType::Variant(m), DType::Variant(n)) => same_nullability(*m, *n),
        (DType::Extension(left), DType::Extension(right)) => {
            same_name(&left.id, &right.id) && same_types(&left.storage, &right.storage)
        }
        _ => false,
    }
}

#[cycle(equality)]
#[tactic(auto, using(crate::proofs::SamesLemmas::fields_at, crate::proofs::SamesLemmas::fields_differ))]
fn same_fields(left: &[Field], right: &[Field]) -> bool
    ensures { result ≡ same_fields (fields_of left.now) (fields_of right.now) }
{
    if left.len() != right.len() {
        return false;
    }
    for i in 0..left.len() {
        if !(same_name(&left[i].name, &right[i].name)
            && same_types(&left[i].dtype, &right[i].dtype))
        {
            return false;
        }
    }
    true
}

#[cycle(equality)]
#[tactic(auto, using(crate::proofs::SamesLemmas::variants_differ))]
fn same_variants(left: &[UnionVariant], right: &[UnionVariant]) -> bool
    ensures { result ≡ same_variants (variants_of left.now) (variants_of right.now) }
{
    if left.len() != right.len() {
        return false;
    }
    for i in 0..left.len() {
        if !same_variant(&left[i], &right[i]) {
            return false;
        }
    }
    true
}

#[cycle(equality)]
fn same_variant(left: &UnionVariant, right: &UnionVariant) -> bool
    ensures { result ≡ same_variant left.now right.now }
{
    left.tag == right.tag
        && same_name(&left.name, &right.name)
        && same_types(&left.dtype, &right.dtype)
}

#[tactic(auto, using(crate::proofs::SamesLemmas::texts_same))]
fn same_name(left: &Name, right: &Name) -> bool
    ensures { result ≡ same_code (bytes_code left.now) (bytes_code right.now) }
{
    left.as_str() == right.as_str()
}

#[tactic(auto, using(crate::proofs::SamesLemmas::nullabilities_same))]
fn same_nullability(left: Nullability, right: Nullability) -> bool
    ensures { result ≡ same_code (nullability_code left) (nullability_code right) }
{
    left == right
}

#[tactic(auto, using(crate::proofs::SamesLemmas::ptypes_same))]
fn same_ptype(left: PType, right: PType) -> bool
    ensures { result ≡ same_code (ptype_code left) (ptype_code right) }
{
    left == right
}

fn same_decimal(left: DecimalDType, right: DecimalDType) -> bool
    ensures { result ≡ ((left.precision == right.precision) && (left.scale == right.scale)) }
{
    left.precision() == right.precision() && left.scale() == right.scale()
}
