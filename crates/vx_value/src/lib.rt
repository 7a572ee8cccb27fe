//! The types, scalars and errors of array trees.
#![tactic(auto)]

mod bytes;
mod cast;
mod compare;
mod decimal;
mod digits;
mod dtype;
mod equality;
mod error;
mod fields;
mod fitting;
mod hashing;
mod id;
mod laws;
mod names;
mod nested;
mod parts;
mod rescaling;
mod scalar;
mod supported;
mod text;
mod typed;
mod values;
mod variants;
mod zero;

pub use bytes::{ByteBuffer, is_text};
pub use cast::has_cast;
pub use decimal::{DecimalDType, DecimalType, DecimalValue};
pub use digits::Digits;
pub use dtype::{DType, Nullability, PType, Storage};
pub use error::{ArgKind, SessionKind, VortexError, VortexResult};
pub use fitting::{fits, overflow};
pub use id::Id;
pub use laws::cast_laws;
pub use nested::{
    ExtDType, Field, FieldNames, MapDType, Name, StructFields, TypeRef, UnionVariant, UnionVariants,
};
pub use rescaling::Rescaling;
pub use scalar::{Scalar, ScalarKind, ScalarValue};
pub use supported::has_columns;
pub use text::type_text;
pub use values::{ScalarValues, ValueRef};
