//! Builders: rows and nulls that are appended, and those that are refused.

use std::alloc::Global;
use std::test::Fail;
use vx_column::Builder;
use vx_exec::{VortexSession, execute_into_builder};
use vx_tree::{ArrayKind, Columnar, IntoArray, Validity};
use vx_value::{ArgKind, DType, Nullability, PType, Scalar, VortexError, VortexResult};

const NULLABLE: DType = DType::Primitive(PType::I32, Nullability::Nullable);

fn nine(nullability: Nullability) -> Scalar {
    Scalar::primitive(9, PType::I32, nullability)
}

fn is_refused(appended: VortexResult<()>, error: VortexError) -> bool {
    matches!(appended, Err(e) if e == error)
}

const BAD_TYPE: VortexError = VortexError::InvalidArgument(ArgKind::BadType);

// Whether the validity has this many rows, and two of them are true: the first and the one before the last.
fn has_two(validity: &Validity, len: usize) -> bool {
    let Validity::Array(array) = validity else {
        return false;
    };
    match array.kind() {
        ArrayKind::Bool(bits, None) if bits.len() == len && len > 1 => {
            bits.true_count() == 2 && bits.value(0) && bits.value(len - 2)
        }
        _ => false,
    }
}

fn builder_of_rows(alloc: Global) -> VortexResult<Builder> {
    let mut builder = Builder::with_capacity(alloc, NULLABLE, 2)?;
    builder.append_scalar(&nine(Nullability::Nullable))?;
    builder.append_nulls(70)?;
    builder.append_scalar(&nine(Nullability::Nullable))?;
    Ok(builder)
}

fn is_finished(alloc: Global, builder: Builder) -> VortexResult<bool> {
    let column = builder.finish(alloc)?;
    let validity = column.as_array().validity(alloc)?;
    Ok(column.as_primitive().is_some() && has_two(&validity, 73))
}

#[test]
fn rows_and_nulls_are_appended(rt: HostRuntime) -> Result<(), Fail> {
    let mut builder = builder_of_rows(rt.alloc())?;
    let refused = builder.append_scalar(&nine(Nullability::NonNullable));
    assert!(rt; is_refused(refused, BAD_TYPE));
    builder.append_nulls(1)?;
    assert!(rt; builder.len() == 73 && builder.dtype() == &NULLABLE);
    assert!(rt; is_finished(rt.alloc(), builder)?);
    Ok(())
}

fn builder_of_nulls(alloc: Global, len: usize) -> VortexResult<Builder> {
    let mut builder = Builder::with_capacity(alloc, DType::Null, 0)?;
    builder.append_nulls(len)?;
    Ok(builder)
}

#[test]
fn more_rows_than_can_be_counted(rt: HostRuntime) -> Result<(), Fail> {
    let alloc = rt.alloc();
    let mut nulls = builder_of_nulls(alloc, usize::MAX)?;
    let len = usize::MAX;
    let too_long = VortexError::TooLong { len, factor: 1 };
    assert!(rt; is_refused(nulls.append_scalar(&Scalar::null(DType::Null)), too_long));
    assert!(rt; is_refused(nulls.append_nulls(1), too_long));
    assert!(rt; nulls.finish(alloc)?.as_array().len() == usize::MAX);
    Ok(())
}

/// Returns the constant nine, twice.
fn nines(alloc: Global, nullability: Nullability) -> VortexResult<Columnar> {
    Columnar::constant(alloc, nine(nullability), 2)
}

#[test]
fn columns_are_appended(rt: HostRuntime) -> Result<(), Fail> {
    let alloc = rt.alloc();
    let mut builder = builder_of_rows(alloc)?;
    builder.append_column(alloc, &nines(alloc, Nullability::Nullable)?)?;
    let refused = builder.append_column(alloc, &nines(alloc, Nullability::NonNullable)?);
    assert!(rt; is_refused(refused, BAD_TYPE));
    assert!(rt; builder.len() == 74);
    Ok(())
}

/// Executes `column` into `builder`.
fn executed(alloc: Global, column: Columnar, builder: Builder) -> VortexResult<Builder> {
    let mut ctx = VortexSession::empty(alloc).create_execution_ctx(alloc);
    execute_into_builder(column.into_array(), builder, &mut ctx)
}

/// Checks that `column` isn't executed into `builder`, for `error`.
fn is_unexecuted(alloc: Global, column: Columnar, builder: Builder, error: VortexError) -> bool {
    matches!(executed(alloc, column, builder), Err(e) if e == error)
}

/// Checks that the constant is executed into a builder of its type.
fn is_executed(alloc: Global) -> VortexResult<bool> {
    let column = nines(alloc, Nullability::Nullable)?;
    let builder = builder_of_rows(alloc)?;
    Ok(executed(alloc, column, builder)?.len() == 74)
}

/// Checks that it isn't executed into one of another type.
fn is_refused_by_type(alloc: Global) -> VortexResult<bool> {
    let column = nines(alloc, Nullability::Nullable)?;
    let wide = DType::Primitive(PType::I64, Nullability::Nullable);
    let builder = Builder::with_capacity(alloc, wide, 0)?;
    Ok(is_unexecuted(alloc, column, builder, BAD_TYPE))
}

/// Checks that one row isn't executed into a builder of as many as there can be.
fn is_refused_by_length(alloc: Global) -> VortexResult<bool> {
    let one = Columnar::constant(alloc, Scalar::null(DType::Null), 1)?;
    let len = usize::MAX;
    let nulls = builder_of_nulls(alloc, len)?;
    Ok(is_unexecuted(alloc, one, nulls, VortexError::TooLong { len, factor: 1 }))
}

#[test]
fn trees_are_executed_into_builders(rt: HostRuntime) -> Result<(), Fail> {
    assert!(rt; is_executed(rt.alloc())?);
    assert!(rt; is_refused_by_type(rt.alloc())?);
    assert!(rt; is_refused_by_length(rt.alloc())?);
    Ok(())
}
