//! Columns whose rows can be read without executing anything.

ghost use Rattle.std.specs.Prelude.{◌≡◌, ◌==◌, ◌⊎◌, true, is_ok, IfOk, IfErr, OnOk, false};
ghost use Rattle.vx_value.specs.View.{type_of};
ghost use Rattle.vx_value.specs.Supported.{has_columns};
ghost use Rattle.vx_tree.specs.Tree.{dtype, len, datum, is_columnar, constant_of};
ghost use Rattle.vx_tree.specs.Canonicals.{columnar_tree};

use crate::array::{ArrayRef, IntoArray};
use crate::arrays::constant::ConstantArray;
use crate::canonical::canonical::Canonical;
use std::alloc::Global;
use vx_value::{ArgKind, DType, Scalar, VortexError, VortexResult};

/// A canonical column, or a constant.
#[derive(Clone, Debug, Drop)]
pub enum Columnar {
    Canonical(Canonical),
    Constant(ConstantArray),
}

impl Columnar {
    /// Makes the constant of `len` rows, each `scalar`.
    ///
    /// Returns `InvalidArgument` with `BadType` exactly if there are no columns of the scalar's type.
    pub fn constant(alloc: Global, scalar: Scalar, len: usize) -> VortexResult<Columnar>
        ensures ok { IfOk result (λ c. columnar_tree c ≡ constant_of scalar len) }
        ensures valid { OnOk result (has_columns scalar.of_type ≡ true) }
        ensures refused { IfErr result (λ e. (e ≡ VortexError.OutOfMemory)
            ⊎ ((e ≡ VortexError.InvalidArgument ArgKind.BadType) × (has_columns scalar.of_type ≡ false))) }
    {
        Ok(Columnar::Constant(ConstantArray::new(alloc, scalar, len)?))
    }

    /// Returns `array` as a column. Hands it back if it is neither canonical nor a constant. (own)
    pub fn try_from_array_ref(array: ArrayRef) -> Result<Columnar, ArrayRef>
        ensures which { is_ok result ≡ is_columnar (datum array) }
        ensures ok { IfOk result (λ c. columnar_tree c ≡ array) }
        ensures err { IfErr result (λ a. a ≡ array) }
    {
        match Canonical::try_from_array_ref(array) {
            Ok(column) => Ok(Columnar::Canonical(column)),
            Err(array) => match ConstantArray::try_from_array_ref(array) {
                Ok(column) => Ok(Columnar::Constant(column)),
                Err(array) => Err(array),
            },
        }
    }

    /// Returns the reference of the column. (own)
    #[tactic(auto, using(std::proofs::lemmas::Bool::or_left, std::proofs::lemmas::Bool::or_right))]
    pub fn as_array(&self) -> &ArrayRef
        ensures of { result.now ≡ columnar_tree self.now }
        ensures columnar { is_columnar (datum (columnar_tree self.now)) ≡ true }
    {
        match self {
            Columnar::Canonical(column) => column.as_array(),
            Columnar::Constant(column) => column.as_array(),
        }
    }

    /// Returns the number of rows.
    pub fn len(&self) -> usize
        ensures { result ≡ len (columnar_tree self.now) }
    {
        self.as_array().len()
    }

    /// Returns whether there are no rows.
    pub fn is_empty(&self) -> bool
        ensures { result ≡ (len (columnar_tree self.now) == 0) }
    {
        self.as_array().is_empty()
    }

    /// Returns the type of the rows.
    pub fn dtype(&self) -> &DType
        ensures dtype { type_of result.now ≡ dtype (columnar_tree self.now) }
        ensures columns { has_columns (dtype (columnar_tree self.now)) ≡ true }
    {
        self.as_array().dtype()
    }
}

impl IntoArray for Columnar {
    ghost tree_of = { columnar_tree };

    fn into_array(self) -> ArrayRef {
        match self {
            Columnar::Canonical(column) => column.into_array(),
            Columnar::Constant(column) => column.into_array(),
        }
    }
}
