//! Lists that are known in advance.

ghost use Rattle.vx_fn.specs.PreparedSet.{prepared_set};

use crate::argument_names::ArgumentNames;
use crate::row_function::RowFunction;
use std::alloc::Global;
use vx_value::{DType, Id, Scalar, VortexResult};

impl RowFunction for Scalar {
    ghost meaning = { prepared_set };

    fn signature(&self) -> (Id, ArgumentNames<'_>) {
        (Id::PreparedSet, ArgumentNames::Fixed(&[]))
    }

    fn return_dtype(&self, _alloc: Global, arguments: &[DType]) -> VortexResult<Option<DType>> {
        match (arguments, self.dtype()) {
            ([], DType::List(_, _)) => Ok(Some(self.dtype().clone()?)),
            _ => Ok(None),
        }
    }

    fn apply(&self, _alloc: Global, arguments: &[Scalar]) -> VortexResult<Scalar> {
        match arguments {
            [] => Ok(self.clone()?),
            _ => unreachable!(),
        }
    }
}
