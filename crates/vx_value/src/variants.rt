//! The variants of union types, and the parts of maps and extensions.

ghost use Rattle.std.specs.Prelude.{◌≡◌, ◌↔◌, ◌⊎◌, IfOk, IfErr, IsErrOf, true, false, is_some, option_map, ◌||◌};
ghost use Rattle.vx_value.specs.Errors.{OnlyOutOfMemory};
ghost use Rattle.vx_value.specs.View.{type_of, variants_of};
ghost use Rattle.vx_value.specs.Nested.{are_variants, are_distinct, tag_type, has_variant, is_map, entry_type, is_id};

use crate::{
    ArgKind, DType, ExtDType, Field, MapDType, Name, Nullability, StructFields, TypeRef,
    UnionVariant, UnionVariants, VortexError, VortexResult,
};
use std::alloc::Global;
use std::rc::Rc;

impl UnionVariants {
    /// Makes the variants of a union type.
    ///
    /// Returns `InvalidArgument` with `BadType` exactly if there are none, or if two have one tag or one name. So there are at most
    /// 256.
    pub fn try_new(alloc: Global, variants: Vec<UnionVariant>) -> VortexResult<UnionVariants>
        ensures ok { IfOk result (λ us. us ≡ variants_of variants.items) }
        ensures refused { IsErrOf result (VortexError.InvalidArgument ArgKind.BadType) ↔ (are_variants (variants_of variants.items) ≡ false) }
        ensures err { IfErr result (λ e. (e ≡ VortexError.OutOfMemory) ⊎ (e ≡ VortexError.InvalidArgument ArgKind.BadType)) }
    {
        if !are_variants(variants.as_slice()) {
            return Err(VortexError::InvalidArgument(ArgKind::BadType));
        }
        Ok(UnionVariants {
            variants: Rc::new(alloc, variants)?,
        })
    }

    /// Returns the variants, in order.
    pub fn as_slice(&self) -> &[UnionVariant]
        ensures variants { variants_of result.now ≡ self.now }
        ensures distinct { are_variants self.now ≡ true }
    {
        self.variants.as_slice()
    }

    /// Returns the type of the variant with tag `tag`, or `None` if there is none.
    pub fn variant(&self, tag: u8) -> Option<&DType>
        ensures { option_map (λ t. type_of t.now) result ≡ tag_type tag self.now }
    {
        for variant in self.variants.as_slice() {
            if tag == variant.tag {
                return Some(&variant.dtype);
            }
        }
        None
    }
}

/// Checks whether there are variants, no two with one tag or one name.
#[tactic(auto, using(crate::proofs::NestedLemmas::some_variant))]
fn are_variants(variants: &[UnionVariant]) -> bool
    ensures { result ≡ are_variants (variants_of variants.now) }
{
    !variants.is_empty() && are_distinct(variants)
}

/// Checks whether no two of `variants` have one tag or one name.
#[tactic(auto, using(crate::proofs::NestedLemmas::variants_apart))]
fn are_distinct(variants: &[UnionVariant]) -> bool
    ensures { result ≡ are_distinct (variants_of variants.now) }
{
    for i in 0..variants.len() {
        if is_repeated(&variants[i], &variants[i + 1..]) {
            return false;
        }
    }
    true
}

/// Checks whether one of `others` has the tag or the name of `variant`.
fn is_repeated(variant: &UnionVariant, others: &[UnionVariant]) -> bool
    ensures { result ≡ (is_some (tag_type variant.now.tag (variants_of others.now)) || has_variant variant.now.name (variants_of others.now)) }
{
    for other in others {
        if variant.tag == other.tag || variant.name.as_str() == other.name.as_str() {
            return true;
        }
    }
    false
}

impl MapDType {
    /// Makes the type of a map with these keys and values.
    ///
    /// Returns `InvalidArgument` with `BadType` exactly if `key` is nullable.
    pub fn try_new(alloc: Global, key: DType, value: DType) -> VortexResult<MapDType>
        ensures ok { IfOk result (λ m. m ≡ (type_of key, type_of value)) }
        ensures refused { IsErrOf result (VortexError.InvalidArgument ArgKind.BadType) ↔ (is_map (type_of key) (type_of value) ≡ false) }
        ensures err { IfErr result (λ e. (e ≡ VortexError.OutOfMemory) ⊎ (e ≡ VortexError.InvalidArgument ArgKind.BadType)) }
    {
        if key.is_nullable() {
            return Err(VortexError::InvalidArgument(ArgKind::BadType));
        }
        let mut fields = Vec::with_capacity(alloc, 2)?;
        fields.push(Field {
            name: Name::new(alloc, String::from_str(alloc, "key")?)?,
            dtype: key,
        })?;
        fields.push(Field {
            name: Name::new(alloc, String::from_str(alloc, "value")?)?,
            dtype: value,
        })?;
        let fields = StructFields {
            fields: Rc::new(alloc, fields)?,
        };
        Ok(MapDType {
            entry: TypeRef::new(alloc, DType::Struct(fields, Nullability::NonNullable))?,
        })
    }

    /// Returns the type of the entries: a struct of the fields `key` and `value`, never null.
    pub fn entry(&self) -> &DType
        ensures entry { type_of result.now ≡ entry_type self.now.0 self.now.1 }
        ensures not_null { is_map self.now.0 self.now.1 ≡ true }
    {
        &self.entry
    }

    /// Returns the type of the keys, which isn't nullable.
    pub fn key(&self) -> &DType
        ensures { type_of result.now ≡ self.now.0 }
    {
        match &*self.entry {
            DType::Struct(fields, _) => &fields.fields[0].dtype,
            _ => unreachable!(),
        }
    }

    /// Returns the type of the values.
    pub fn value(&self) -> &DType
        ensures { type_of result.now ≡ self.now.1 }
    {
        match &*self.entry {
            DType::Struct(fields, _) => &fields.fields[1].dtype,
            _ => unreachable!(),
        }
    }
}

impl ExtDType {
    /// Makes the extension type `id` that is stored as `storage`.
    ///
    /// Returns `InvalidArgument` with `BadType` exactly if `id` is empty.
    pub fn try_new(id: Name, storage: TypeRef) -> VortexResult<ExtDType>
        ensures ok { IfOk result (λ e. (e.0 ≡ id) × (e.1 ≡ storage)) }
        ensures refused { IsErrOf result (VortexError.InvalidArgument ArgKind.BadType) ↔ (is_id id ≡ false) }
        ensures err { IfErr result (λ e. e ≡ VortexError.InvalidArgument ArgKind.BadType) }
    {
        if id.as_str() == "" {
            Err(VortexError::InvalidArgument(ArgKind::BadType))
        } else {
            Ok(ExtDType { id, storage })
        }
    }

    /// Returns the id.
    pub fn id(&self) -> &str
        ensures id { result.now ≡ self.now.0 }
        ensures some { is_id self.now.0 ≡ true }
    {
        self.id.as_str()
    }

    /// Returns the type that the values are stored as.
    pub fn storage(&self) -> &DType
        ensures { type_of result.now ≡ self.now.1 }
    {
        &self.storage
    }

    /// Returns the same extension of another storage. Fails only with `OutOfMemory`.
    pub(crate) fn with_storage(&self, storage: TypeRef) -> VortexResult<ExtDType>
        ensures ok { IfOk result (λ e. e ≡ (self.now.0, storage)) }
        ensures err { OnlyOutOfMemory result }
    {
        Ok(ExtDType {
            id: self.id.clone()?,
            storage,
        })
    }
}
