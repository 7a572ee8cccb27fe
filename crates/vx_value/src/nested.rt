//! The parts of nested types, shared, as in the original's `dtype` module.

ghost use Rattle.std.specs.Prelude.{◌≡◌, IfOk, string_bytes};
ghost use Rattle.vx_value.specs.Errors.{OnlyOutOfMemory};
ghost use Rattle.vx_value.specs.View.{type_of};

use crate::{DType, VortexResult};
use std::alloc::{AllocError, Global};
use std::marker::Model;
use std::ops::Deref;
use std::rc::Rc;

/// A name: of a field, of a union's variant, or the id of an extension. Clones share it. A contract sees the list of its bytes.
#[derive(Debug, Drop)]
pub struct Name {
    pub(crate) text: Rc<String>,
}

impl Model for Name {
    ghost use Rattle.std.specs.Prelude.{List, ℕ, string_bytes};

    ghost Value = { List ℕ };

    ghost view = { λ a. string_bytes a.text.value };
}

/// Names, in order, shared. A contract sees the list of their bytes.
#[derive(Debug, Drop)]
pub struct FieldNames {
    pub(crate) names: Rc<Vec<Name>>,
}

impl Model for FieldNames {
    ghost use Rattle.std.specs.Prelude.{List, ℕ};

    ghost Value = { List (List ℕ) };

    ghost view = { λ a. a.names.value.items };
}

/// A type, shared. A contract sees the type.
#[cycle(dtype)]
#[derive(Debug, Drop)]
pub struct TypeRef {
    pub(crate) dtype: Rc<DType>,
}

impl Model for TypeRef {
    ghost use Rattle.vx_value.specs.Types.{DataType, coded_type, height};

    ghost Value = { DataType };

    ghost coded = { coded_type };

    ghost use Rattle.vx_value.specs.View.{type_of};

    ghost view = { λ a. type_of a.dtype.value };

    ghost size = { height };

    ghost use Rattle.std.proofs.Common.{arith};
    ghost use Rattle.vx_value.specs.Falls.{type_below};

    ghost size_decreases = { λ a h. omega (arith, type_below a.dtype.value) };
}

/// A field of a struct type.
#[cycle(dtype)]
#[derive(Debug, Drop)]
pub struct Field {
    pub name: Name,
    pub dtype: DType,
}

/// The fields of a struct type, in order, shared. No two have one name. A contract sees the list of names and types.
#[cycle(dtype)]
#[derive(Debug, Drop)]
pub struct StructFields {
    pub(crate) fields: Rc<Vec<Field>>,
}

impl Model for StructFields {
    ghost use Rattle.vx_value.specs.Types.{Fields, coded_fields, fields_height};

    ghost Value = { Fields };

    ghost coded = { coded_fields };

    ghost use Rattle.std.specs.Prelude.{◌≡◌, true};
    ghost use Rattle.vx_value.specs.View.{fields_of};
    ghost use Rattle.vx_value.specs.Nested.{are_fields};

    ghost view = { λ a. fields_of a.fields.value.items };

    ghost invariant = { λ a. are_fields (fields_of a.fields.value.items) ≡ true };

    ghost size = { fields_height };

    ghost use Rattle.std.proofs.Common.{arith};
    ghost use Rattle.vx_value.specs.Falls.{fields_below};

    ghost size_decreases = { λ a h. omega (arith, fields_below a.fields.value.items) };
}

/// A variant of a union type. A row of the variant begins with its tag.
#[cycle(dtype)]
#[derive(Debug, Drop)]
pub struct UnionVariant {
    pub tag: u8,
    pub name: Name,
    pub dtype: DType,
}

/// The variants of a union type, in order, shared: from 1 to 256, with distinct tags and distinct names. A contract sees the list
/// of tags, names and types.
#[cycle(dtype)]
#[derive(Debug, Drop)]
pub struct UnionVariants {
    pub(crate) variants: Rc<Vec<UnionVariant>>,
}

impl Model for UnionVariants {
    ghost use Rattle.vx_value.specs.Types.{Variants, coded_variants, variants_height};

    ghost Value = { Variants };

    ghost coded = { coded_variants };

    ghost use Rattle.std.specs.Prelude.{◌≡◌, true};
    ghost use Rattle.vx_value.specs.View.{variants_of};
    ghost use Rattle.vx_value.specs.Nested.{are_variants};

    ghost view = { λ a. variants_of a.variants.value.items };

    ghost invariant = { λ a. are_variants (variants_of a.variants.value.items) ≡ true };

    ghost size = { variants_height };

    ghost use Rattle.std.proofs.Common.{arith};
    ghost use Rattle.vx_value.specs.Falls.{variants_below};

    ghost size_decreases = { λ a h. omega (arith, variants_below a.variants.value.items) };
}

/// The types of a map's keys, which aren't null, and of its values. A contract sees the pair.
#[cycle(dtype)]
#[derive(Debug, Drop)]
pub struct MapDType {
    /// The type of the entries: a struct of `key` and `value`, never null.
    pub(crate) entry: TypeRef,
}

impl Model for MapDType {
    ghost use Rattle.std.specs.Coded.{coded×};
    ghost use Rattle.vx_value.specs.Types.{DataType, coded_type, height};

    ghost Value = { DataType × DataType };

    ghost coded = { coded× coded_type coded_type };

    ghost use Rattle.std.specs.Prelude.{◌≡◌, ◌+◌, true};
    ghost use Rattle.vx_value.specs.Nested.{is_map, entry_type, key_in, value_in};

    ghost view = { λ a. (key_in a.entry, value_in a.entry) };

    ghost invariant = { λ a. (a.entry ≡ entry_type (key_in a.entry) (value_in a.entry)) × (is_map (key_in a.entry) (value_in a.entry) ≡ true) };

    ghost size = { λ m. height (entry_type m.0 m.1) + 1 };

    ghost use Rattle.std.proofs.Common.{arith, ap};

    ghost size_decreases = { λ a h. omega (arith, ap height h.0) };
}

/// An extension type: its id, which isn't empty, and the type that it is stored as. A contract sees the pair.
#[cycle(dtype)]
#[derive(Debug, Drop)]
pub struct ExtDType {
    pub(crate) id: Name,
    pub(crate) storage: TypeRef,
}

impl Model for ExtDType {
    ghost use Rattle.std.specs.Prelude.{◌≡◌, ◌+◌, true, List, ℕ};
    ghost use Rattle.std.specs.Coded.{coded×, coded_list, coded_ℕ};
    ghost use Rattle.vx_value.specs.Types.{DataType, coded_type, height};

    ghost Value = { List ℕ × DataType };

    ghost coded = { coded× (coded_list coded_ℕ) coded_type };

    ghost use Rattle.vx_value.specs.Nested.{is_id};

    ghost view = { λ a. (a.id, a.storage) };

    ghost invariant = { λ a. is_id a.id ≡ true };

    ghost size = { λ e. height e.1 + 1 };

    ghost use Rattle.std.proofs.Common.{arith};

    ghost size_decreases = { λ a h. omega arith };
}

impl Clone for Name {
    ghost is_clone = { λ a b. b ≡ a };

    /// Returns the same name, shared.
    fn clone(&self) -> Result<Name, AllocError> {
        Ok(Name {
            text: self.text.clone()?,
        })
    }
}

impl Clone for FieldNames {
    ghost is_clone = { λ a b. b ≡ a };

    /// Returns the same names, shared.
    fn clone(&self) -> Result<FieldNames, AllocError> {
        Ok(FieldNames {
            names: self.names.clone()?,
        })
    }
}

impl Clone for TypeRef {
    ghost is_clone = { λ a b. b ≡ a };

    /// Returns the same type, shared.
    fn clone(&self) -> Result<TypeRef, AllocError> {
        Ok(TypeRef {
            dtype: self.dtype.clone()?,
        })
    }
}

impl Clone for StructFields {
    ghost is_clone = { λ a b. b ≡ a };

    /// Returns the same fields, shared.
    fn clone(&self) -> Result<StructFields, AllocError> {
        Ok(StructFields {
            fields: self.fields.clone()?,
        })
    }
}

impl Clone for UnionVariants {
    ghost is_clone = { λ a b. b ≡ a };

    /// Returns the same variants, shared.
    fn clone(&self) -> Result<UnionVariants, AllocError> {
        Ok(UnionVariants {
            variants: self.variants.clone()?,
        })
    }
}

impl Clone for MapDType {
    ghost is_clone = { λ a b. b ≡ a };

    /// Returns the same types, shared.
    fn clone(&self) -> Result<MapDType, AllocError> {
        Ok(MapDType {
            entry: self.entry.clone()?,
        })
    }
}

impl Clone for ExtDType {
    ghost is_clone = { λ a b. b ≡ a };

    /// Returns the same id and type, shared.
    fn clone(&self) -> Result<ExtDType, AllocError> {
        Ok(ExtDType {
            id: self.id.clone()?,
            storage: self.storage.clone()?,
        })
    }
}

impl TypeRef {
    /// Makes a shared type. Fails only with `OutOfMemory`.
    pub fn new(alloc: Global, dtype: DType) -> VortexResult<TypeRef>
        ensures ok { IfOk result (λ t. t ≡ type_of dtype) }
        ensures err { OnlyOutOfMemory result }
    {
        Ok(TypeRef {
            dtype: Rc::new(alloc, dtype)?,
        })
    }
}

impl Deref for TypeRef {
    type Target = DType;

    ghost deref_gives = { λ t d. type_of d ≡ t };

    fn deref(&self) -> &DType {
        &self.dtype
    }
}
