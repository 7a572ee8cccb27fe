//! The values of columns, encoding by encoding: slices, and empty ones.

ghost use Rattle.std.specs.Prelude.{refl};

use crate::arrays::boolean::{Bool, BoolData};
use crate::arrays::decimal::{Decimal, DecimalData};
use crate::arrays::primitive::{Primitive, PrimitiveData};
use crate::arrays::varbinview::{VarBinView, VarBinViewData};
use crate::canonical::flat::FlatEncoding;
use crate::native::{DecimalValues, PrimitiveValues};
use crate::views::BinaryViews;
use std::alloc::Global;
use std::ops::Range;
use vx_mask::BitBuffer;
use vx_value::{ByteBuffer, DType, DecimalType, VortexResult};

impl FlatEncoding for Bool {
    fn no_values(alloc: Global, _dtype: &DType) -> VortexResult<BoolData> {
        let bits = BitBuffer::repeat(alloc, false, 0)?;
        Ok(BoolData { bits })
    }

    fn slice_values(payload: &BoolData, range: Range<usize>) -> VortexResult<BoolData> {
        Ok(BoolData {
            bits: payload.bits.slice(range)?,
        })
    }

    ghost flat = { λ d. refl };
}

impl FlatEncoding for Primitive {
    #[tactic(auto, using(vx_value::proofs::DefaultsLemmas::zero_in_range))]
    fn no_values(alloc: Global, dtype: &DType) -> VortexResult<PrimitiveData> {
        let DType::Primitive(ptype, _) = dtype else {
            unreachable!()
        };
        let values = PrimitiveValues::repeat(alloc, *ptype, 0, 0)?;
        Ok(PrimitiveData { values })
    }

    fn slice_values(payload: &PrimitiveData, range: Range<usize>) -> VortexResult<PrimitiveData> {
        Ok(PrimitiveData {
            values: payload.values.slice(range)?,
        })
    }

    ghost flat = { λ d. refl };
}

impl FlatEncoding for Decimal {
    fn no_values(alloc: Global, dtype: &DType) -> VortexResult<DecimalData> {
        let DType::Decimal(decimal, _) = dtype else {
            unreachable!()
        };
        let width = DecimalType::smallest_decimal_value_type(decimal);
        let values = DecimalValues::repeat(alloc, width, 0, 0)?;
        Ok(DecimalData { values })
    }

    fn slice_values(payload: &DecimalData, range: Range<usize>) -> VortexResult<DecimalData> {
        Ok(DecimalData {
            values: payload.values.slice(range)?,
        })
    }

    ghost flat = { λ d. refl };
}

impl FlatEncoding for VarBinView {
    fn no_values(alloc: Global, _dtype: &DType) -> VortexResult<VarBinViewData> {
        let rows = BinaryViews::repeat(alloc, ByteBuffer::empty(), 0)?;
        Ok(VarBinViewData { rows })
    }

    fn slice_values(payload: &VarBinViewData, range: Range<usize>) -> VortexResult<VarBinViewData> {
        Ok(VarBinViewData {
            rows: payload.rows.slice(range)?,
        })
    }

    ghost flat = { λ d. refl };
}
