//! Whether a value is null, or isn't.

ghost use Rattle.vx_fn.specs.IsNull.{null_meaning};

use crate::argument_names::ArgumentNames;
use crate::row_function::RowFunction;
use std::alloc::Global;
use vx_value::{DType, Id, Nullability, Scalar, VortexResult};

/// A test of the argument `input`. (own)
#[derive(Clone, Copy)]
pub(crate) enum NullTest {
    /// Whether it is null.
    IsNull,
    /// Whether it isn't null.
    IsNotNull,
}

impl RowFunction for NullTest {
    ghost meaning = { null_meaning };

    fn signature(&self) -> (Id, ArgumentNames<'_>) {
        match self {
            NullTest::IsNull => (Id::IsNull, ArgumentNames::Fixed(&["input"])),
            NullTest::IsNotNull => (Id::IsNotNull, ArgumentNames::Fixed(&["input"])),
        }
    }

    fn return_dtype(&self, _alloc: Global, arguments: &[DType]) -> VortexResult<Option<DType>> {
        match arguments {
            [_] => Ok(Some(DType::Bool(Nullability::NonNullable))),
            _ => Ok(None),
        }
    }

    fn apply(&self, _alloc: Global, arguments: &[Scalar]) -> VortexResult<Scalar> {
        let passed = match (self, arguments) {
            (NullTest::IsNull, [input]) => input.is_null(),
            (NullTest::IsNotNull, [input]) => !input.is_null(),
            _ => unreachable!(),
        };
        Ok(Scalar::bool(passed, Nullability::NonNullable))
    }
}
