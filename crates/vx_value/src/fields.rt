//! The fields of struct types.

ghost use Rattle.std.specs.Prelude.{◌≡◌, ◌↔◌, ◌⊎◌, IfOk, IfErr, IsErrOf, true, false, is_some, option_map};
ghost use Rattle.vx_value.specs.View.{type_of, fields_of};
ghost use Rattle.vx_value.specs.Nested.{are_fields, field_type, field_place, fields_count};

use crate::{ArgKind, DType, Field, StructFields, VortexError, VortexResult};
use std::alloc::Global;
use std::rc::Rc;

impl StructFields {
    /// Makes the fields of a struct type.
    ///
    /// Returns `InvalidArgument` with `BadType` exactly if two fields have one name.
    pub fn try_new(alloc: Global, fields: Vec<Field>) -> VortexResult<StructFields>
        ensures ok { IfOk result (λ fs. fs ≡ fields_of fields.items) }
        ensures refused { IsErrOf result (VortexError.InvalidArgument ArgKind.BadType) ↔ (are_fields (fields_of fields.items) ≡ false) }
        ensures err { IfErr result (λ e. (e ≡ VortexError.OutOfMemory) ⊎ (e ≡ VortexError.InvalidArgument ArgKind.BadType)) }
    {
        if !are_fields(fields.as_slice()) {
            return Err(VortexError::InvalidArgument(ArgKind::BadType));
        }
        Ok(StructFields {
            fields: Rc::new(alloc, fields)?,
        })
    }

    /// Returns the fields, in order. No two have one name.
    pub fn as_slice(&self) -> &[Field]
        ensures fields { fields_of result.now ≡ self.now }
        ensures distinct { are_fields self.now ≡ true }
    {
        self.fields.as_slice()
    }

    /// Returns the number of fields.
    #[tactic(auto, using(crate::proofs::NestedLemmas::fields_length))]
    pub fn nfields(&self) -> usize
        ensures { result ≡ fields_count self.now }
    {
        self.fields.len()
    }

    /// Returns the place of the field named `name`, from 0, or `None` if there is none.
    pub fn find(&self, name: &str) -> Option<usize>
        ensures { result ≡ field_place name.now self.now }
    {
        place_of(self.fields.as_slice(), name)
    }

    /// Returns the type of the field named `name`, or `None` if there is none.
    pub fn field(&self, name: &str) -> Option<&DType>
        ensures { option_map (λ t. type_of t.now) result ≡ field_type name.now self.now }
    {
        for field in self.fields.as_slice() {
            if name == field.name.as_str() {
                return Some(&field.dtype);
            }
        }
        None
    }
}

/// Returns the place of the first of `fields` named `name`, from 0.
fn place_of(fields: &[Field], name: &str) -> Option<usize>
    ensures { result ≡ field_place name.now (fields_of fields.now) }
{
    for i in 0..fields.len() {
        if name == fields[i].name.as_str() {
            return Some(i);
        }
    }
    None
}

/// Checks whether no two of `fields` have one name.
#[tactic(auto, using(crate::proofs::NestedLemmas::fields_apart))]
fn are_fields(fields: &[Field]) -> bool
    ensures { result ≡ are_fields (fields_of fields.now) }
{
    for i in 0..fields.len() {
        if is_repeated(&fields[i], &fields[i + 1..]) {
            return false;
        }
    }
    true
}

/// Checks whether one of `others` has the name of `field`.
fn is_repeated(field: &Field, others: &[Field]) -> bool
    ensures { result ≡ is_some (field_type field.now.name (fields_of others.now)) }
{
    for other in others {
        if field.name.as_str() == other.name.as_str() {
            return true;
        }
    }
    false
}
