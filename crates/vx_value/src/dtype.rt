//! Logical types, as in the original's `dtype` module.

ghost use Rattle.std.specs.Prelude.{◌≡◌, IfOk};
ghost use Rattle.vx_value.specs.Errors.{OnlyOutOfMemory};
ghost use Rattle.vx_value.specs.View.{type_of};
ghost use Rattle.vx_value.specs.Storage.{storage_of, is_nested};
ghost use Rattle.vx_value.specs.Nested.{bare};
ghost use Rattle.vx_value.specs.Types.{nullability_of, is_nullable};
ghost use Rattle.vx_value.specs.Nullabilities.{with_nullability, union};

use crate::{DecimalDType, ExtDType, MapDType, StructFields, TypeRef, UnionVariants, VortexResult};
use std::alloc::{AllocError, Global};

/// The nullability of a type: whether null is one of its values.
#[derive(Clone, Copy, Debug, PartialEq, Eq, Hash)]
pub enum Nullability {
    NonNullable,
    Nullable,
}

impl Nullability {
    /// Checks whether null is one of the values.
    pub fn is_nullable(self) -> bool
        ensures { result ≡ is_nullable self }
    {
        match self {
            Nullability::NonNullable => false,
            Nullability::Nullable => true,
        }
    }

    /// Returns `Nullable` if one of the two is. (own)
    pub fn union(self, other: Nullability) -> Nullability
        ensures { result ≡ union self other }
    {
        match self {
            Nullability::NonNullable => other,
            Nullability::Nullable => Nullability::Nullable,
        }
    }
}

/// The type of the integers in a primitive column, by sign and width in bits.
#[derive(Clone, Copy, Debug, PartialEq, Eq, Hash)]
pub enum PType {
    U8,
    U16,
    U32,
    U64,
    I8,
    I16,
    I32,
    I64,
}

/// How the values of a type are stored in a column. (own)
#[derive(Clone, Copy, Debug, PartialEq, Eq)]
pub enum Storage {
    /// No values: each row is null.
    Nulls,
    /// A bit for each row.
    Bits,
    /// An integer of this type for each row.
    Integers(PType),
    /// A decimal for each row, of at most `precision` digits, `scale` of them behind the point: an integer, without the point.
    Decimals { precision: u8, scale: u8 },
    /// Bytes for each row, which are UTF-8.
    Text,
    /// Bytes for each row.
    Bytes,
    /// Columns of their own for the parts.
    Nested,
}

/// The logical type of an array's rows.
#[cycle(dtype)]
#[derive(Debug, Drop)]
pub enum DType {
    /// Only null, so always nullable.
    Null,
    Bool(Nullability),
    Primitive(PType, Nullability),
    Decimal(DecimalDType, Nullability),
    Utf8(Nullability),
    Binary(Nullability),
    /// Lists of elements of this type.
    List(TypeRef, Nullability),
    /// Lists of elements of this type, as many in each row.
    FixedSizeList(TypeRef, u32, Nullability),
    /// Lists of entries, each a key and a value.
    Map(MapDType, Nullability),
    Struct(StructFields, Nullability),
    /// A value of one of the variants, with its tag.
    Union(UnionVariants, Nullability),
    /// A value of any type, with its type.
    Variant(Nullability),
    /// Values of another type, as which they are stored. They are null as these are.
    Extension(ExtDType),
}

impl Clone for DType {
    ghost is_clone = { λ a b. b ≡ a };

    fn clone(&self) -> Result<DType, AllocError> {
        Ok(match self {
            DType::Null => DType::Null,
            DType::Bool(nullability) => DType::Bool(*nullability),
            DType::Primitive(ptype, nullability) => DType::Primitive(*ptype, *nullability),
            DType::Decimal(decimal, nullability) => DType::Decimal(*decimal, *nullability),
            DType::Utf8(nullability) => DType::Utf8(*nullability),
            DType::Binary(nullability) => DType::Binary(*nullability),
            DType::List(element, nullability) => DType::List(element.clone()?, *nullability),
            DType::FixedSizeList(element, size, nullability) => {
                DType::FixedSizeList(element.clone()?, *size, *nullability)
            }
            DType::Map(map, nullability) => DType::Map(map.clone()?, *nullability),
            DType::Struct(fields, nullability) => DType::Struct(fields.clone()?, *nullability),
            DType::Union(variants, nullability) => DType::Union(variants.clone()?, *nullability),
            DType::Variant(nullability) => DType::Variant(*nullability),
            DType::Extension(extension) => DType::Extension(extension.clone()?),
        })
    }
}

impl DType {
    /// Returns the nullability of the type itself, apart from that of its nested types. That of an extension is its storage's.
    pub fn nullability(&self) -> Nullability
        ensures { result ≡ nullability_of (type_of self.now) }
    {
        match self {
            DType::Null => Nullability::Nullable,
            DType::Bool(nullability) => *nullability,
            DType::Primitive(_, nullability) => *nullability,
            DType::Decimal(_, nullability) => *nullability,
            DType::Utf8(nullability) => *nullability,
            DType::Binary(nullability) => *nullability,
            DType::List(_, nullability) => *nullability,
            DType::FixedSizeList(_, _, nullability) => *nullability,
            DType::Map(_, nullability) => *nullability,
            DType::Struct(_, nullability) => *nullability,
            DType::Union(_, nullability) => *nullability,
            DType::Variant(nullability) => *nullability,
            DType::Extension(extension) => extension.storage.nullability(),
        }
    }

    /// Returns the type that an extension is stored as, however often that is an extension itself; any other type as it is. (own)
    pub fn bare(&self) -> &DType
        ensures { type_of result.now ≡ bare (type_of self.now) }
    {
        match self {
            DType::Extension(extension) => extension.storage.bare(),
            _ => self,
        }
    }

    /// Returns how the type's values are stored. (own)
    pub fn storage(&self) -> Storage
        ensures { result ≡ storage_of (type_of self.now) }
    {
        match self {
            DType::Null => Storage::Nulls,
            DType::Bool(_) => Storage::Bits,
            DType::Primitive(ptype, _) => Storage::Integers(*ptype),
            DType::Decimal(decimal, _) => Storage::Decimals {
                precision: decimal.precision(),
                scale: decimal.scale(),
            },
            DType::Utf8(_) => Storage::Text,
            DType::Binary(_) => Storage::Bytes,
            _ => Storage::Nested,
        }
    }

    /// Checks whether the parts of the values are stored in columns of their own. (own)
    pub fn is_nested(&self) -> bool
        ensures { result ≡ is_nested (type_of self.now) }
    {
        match self.storage() {
            Storage::Nested => true,
            _ => false,
        }
    }

    /// Checks whether null is one of the type's values.
    pub fn is_nullable(&self) -> bool
        ensures { result ≡ is_nullable (nullability_of (type_of self.now)) }
    {
        self.nullability().is_nullable()
    }

    /// Returns the nullable type that is otherwise the same. Fails only with `OutOfMemory`.
    pub fn as_nullable(&self, alloc: Global) -> VortexResult<DType>
        ensures ok { IfOk result (λ t. type_of t ≡ with_nullability Nullability.Nullable (type_of self.now)) }
        ensures err { OnlyOutOfMemory result }
    {
        self.with_nullability(alloc, Nullability::Nullable)
    }

    /// Returns the non-nullable type that is otherwise the same; `Null`, which is always nullable, stays. Fails only
    /// with `OutOfMemory`.
    pub fn as_nonnullable(&self, alloc: Global) -> VortexResult<DType>
        ensures ok { IfOk result (λ t. type_of t ≡ with_nullability Nullability.NonNullable (type_of self.now)) }
        ensures err { OnlyOutOfMemory result }
    {
        self.with_nullability(alloc, Nullability::NonNullable)
    }

    /// Returns the type with nullability `nullability`, of an extension that of its storage; `Null` stays. Nested types are
    /// shared. Fails only with `OutOfMemory`.
    pub fn with_nullability(&self, alloc: Global, nullability: Nullability) -> VortexResult<DType>
        ensures ok { IfOk result (λ t. type_of t ≡ with_nullability nullability (type_of self.now)) }
        ensures err { OnlyOutOfMemory result }
    {
        Ok(match self {
            DType::Null => DType::Null,
            DType::Bool(_) => DType::Bool(nullability),
            DType::Primitive(ptype, _) => DType::Primitive(*ptype, nullability),
            DType::Decimal(decimal, _) => DType::Decimal(*decimal, nullability),
            DType::Utf8(_) => DType::Utf8(nullability),
            DType::Binary(_) => DType::Binary(nullability),
            DType::List(element, _) => DType::List(element.clone()?, nullability),
            DType::FixedSizeList(element, size, _) => {
                DType::FixedSizeList(element.clone()?, *size, nullability)
            }
            DType::Map(map, _) => DType::Map(map.clone()?, nullability),
            DType::Struct(fields, _) => DType::Struct(fields.clone()?, nullability),
            DType::Union(variants, _) => DType::Union(variants.clone()?, nullability),
            DType::Variant(_) => DType::Variant(nullability),
            DType::Extension(extension) => {
                let storage = extension.storage.with_nullability(alloc, nullability)?;
                DType::Extension(extension.with_storage(TypeRef::new(alloc, storage)?)?)
            }
        })
    }

    /// Returns the type, nullable if it is or `other` is. Fails only with `OutOfMemory`.
    pub fn union_nullability(&self, alloc: Global, other: Nullability) -> VortexResult<DType>
        ensures ok { IfOk result (λ t. type_of t ≡ with_nullability (union (nullability_of (type_of self.now)) other) (type_of self.now)) }
        ensures err { OnlyOutOfMemory result }
    {
        self.with_nullability(alloc, self.nullability().union(other))
    }
}
