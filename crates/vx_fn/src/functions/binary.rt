//! The binary operators.

ghost use Rattle.std.specs.Prelude.{◌≡◌, ◌⊎◌, option_map, IfOk, IfErr, IsSome, Some, MatchOption, ◌∷◌, [], ℤ, true, false};
ghost use Rattle.vx_value.specs.Types.{DataType};
ghost use Rattle.vx_value.specs.Nullabilities.{with_nullability};
ghost use Rattle.vx_value.specs.View.{type_of, value_of, cell_of};
ghost use Rattle.vx_value.specs.IsOf.{is_of};
ghost use Rattle.vx_value.specs.Order.{is_unnested};
ghost use Rattle.vx_value.specs.Cell.{Cell, value, fault};
ghost use Rattle.vx_fn.specs.Binary.{binary, operator_type, operated, is_logical};
ghost use Rattle.vx_fn.specs.Comparisons.{holds};
ghost use Rattle.vx_fn.specs.Arithmetic.{calculated_by, divided, IsBounded};
ghost use Rattle.vx_fn.specs.Logic.{kleene_and, kleene_or};

use crate::argument_names::ArgumentNames;
use crate::function::Operator;
use crate::order::{compare, is_ordered};
use crate::row_function::RowFunction;
use std::alloc::Global;
use std::cmp::Ordering;
use vx_value::{
    DType, DecimalValue, Id, Nullability, Scalar, ScalarValue, VortexError, VortexResult,
};

impl RowFunction for Operator {
    ghost meaning = { binary };

    fn signature(&self) -> (Id, ArgumentNames<'_>) {
        (Id::Binary, ArgumentNames::Fixed(&["lhs", "rhs"]))
    }

    fn return_dtype(&self, _alloc: Global, arguments: &[DType]) -> VortexResult<Option<DType>> {
        match arguments {
            [lhs, rhs] => Ok(binary_type(*self, lhs, rhs)),
            _ => Ok(None),
        }
    }

    fn apply(&self, _alloc: Global, arguments: &[Scalar]) -> VortexResult<Scalar> {
        match arguments {
            [lhs, rhs] => operate(*self, lhs, rhs),
            _ => unreachable!(),
        }
    }
}

/// Returns the type of an operator's result, or `None` if it doesn't accept the arguments.
fn binary_type(operator: Operator, lhs: &DType, rhs: &DType) -> Option<DType>
    ensures { option_map type_of result ≡ (binary operator).types (type_of lhs.now ∷ type_of rhs.now ∷ []) }
{
    if lhs.eq_ignore_nullability(rhs) {
        operator_type(operator, lhs, lhs.nullability().union(rhs.nullability()))
    } else {
        None
    }
}

/// Returns the type of an operator's result for two arguments of type `dtype`, or `None` if it doesn't accept them. The result
/// has nullability `nullability`.
fn operator_type(operator: Operator, dtype: &DType, nullability: Nullability) -> Option<DType>
    ensures { option_map type_of result ≡ option_map (with_nullability nullability) (operator_type operator (type_of dtype.now)) }
{
    match (operator, dtype) {
        (Operator::Eq | Operator::NotEq, _) => Some(DType::Bool(nullability)),
        (Operator::Gt | Operator::Gte | Operator::Lt | Operator::Lte, _) if is_ordered(dtype) => {
            Some(DType::Bool(nullability))
        }
        (Operator::Add | Operator::Sub, DType::Decimal(decimal, _)) => {
            Some(DType::Decimal(*decimal, nullability))
        }
        (
            Operator::Add | Operator::Sub | Operator::Mul | Operator::Div,
            DType::Primitive(ptype, _),
        ) => Some(DType::Primitive(*ptype, nullability)),
        (Operator::And | Operator::Or, DType::Bool(_)) => Some(DType::Bool(nullability)),
        _ => None,
    }
}

/// Applies `operator` to two arguments, whose types it must accept. `Fault` if the row has no value.
fn operate(operator: Operator, lhs: &Scalar, rhs: &Scalar) -> VortexResult<Scalar>
    requires { IsSome ((binary operator).types (lhs.now.of_type ∷ rhs.now.of_type ∷ [])) }
    ensures typed { IfOk result (λ s. (binary operator).types (lhs.now.of_type ∷ rhs.now.of_type ∷ []) ≡ Some s.of_type) }
    ensures ok { IfOk result (λ s. (binary operator).value (lhs.now.of_type ∷ rhs.now.of_type ∷ []) s.of_type (lhs.now.value ∷ rhs.now.value ∷ []) ≡ value s.value) }
    ensures fault { IfErr result (λ e. (e ≡ VortexError.Fault) × ((t : DataType)
        → (binary operator).types (lhs.now.of_type ∷ rhs.now.of_type ∷ []) ≡ Some t
        → (binary operator).value (lhs.now.of_type ∷ rhs.now.of_type ∷ []) t (lhs.now.value ∷ rhs.now.value ∷ []) ≡ fault)) }
{
    let Some(dtype) = binary_type(operator, lhs.dtype(), rhs.dtype()) else {
        unreachable!();
    };
    if operator.is_logical() {
        let answer = join(operator, lhs.as_bool(), rhs.as_bool());
        return fitted(dtype, answer.map(ScalarValue::Bool));
    }
    match (lhs.value(), rhs.value()) {
        (Some(x), Some(y)) => operate_values(operator, dtype, x, y),
        _ => Ok(Scalar::null(dtype)),
    }
}

/// Joins two truth values by `And`, or by `Or` if `operator` is `Or`. `None` is null.
fn join(operator: Operator, lhs: Option<bool>, rhs: Option<bool>) -> Option<bool>
    ensures and { operator ≡ Operator.And → result ≡ kleene_and lhs rhs }
    ensures or { operator ≡ Operator.Or → result ≡ kleene_or lhs rhs }
{
    let decides = operator == Operator::Or;
    if lhs == Some(decides) || rhs == Some(decides) {
        Some(decides)
    } else if lhs.is_none() || rhs.is_none() {
        None
    } else {
        Some(!decides)
    }
}

/// Applies `operator`, which isn't logical, to two values that aren't null. The result is of type `dtype`; `Fault` if there is
/// none.
fn operate_values(
    operator: Operator,
    dtype: DType,
    lhs: &ScalarValue,
    rhs: &ScalarValue,
) -> VortexResult<Scalar>
    requires { is_logical operator ≡ false }
    ensures ok { IfOk result (λ s. (s.of_type ≡ type_of dtype)
        × (operated operator (type_of dtype) (value_of lhs.now) (value_of rhs.now) ≡ value s.value)) }
    ensures fault { IfErr result (λ e. (e ≡ VortexError.Fault)
        × (operated operator (type_of dtype) (value_of lhs.now) (value_of rhs.now) ≡ fault)) }
{
    let value = match (&dtype, lhs, rhs) {
        (DType::Bool(_), _, _) => ScalarValue::Bool(holds(operator, compare(lhs, rhs))),
        (DType::Primitive(_, _), ScalarValue::Integer(x), ScalarValue::Integer(y)) => {
            ScalarValue::Integer(exactly(operator, *x, *y)?)
        }
        (DType::Decimal(decimal, _), ScalarValue::Decimal(x), ScalarValue::Decimal(y)) => {
            ScalarValue::Decimal(DecimalValue {
                unscaled: exactly(operator, x.unscaled, y.unscaled)?,
                scale: decimal.scale(),
            })
        }
        _ => return Err(VortexError::Fault),
    };
    fitted(dtype, Some(value))
}

/// Returns `value`, which isn't nested, as a scalar of type `dtype`; `None` is null. `Fault` if the type can't hold it.
#[tactic(auto, using(crate::proofs::OrderLemmas::unnested_fits))]
fn fitted(dtype: DType, value: Option<ScalarValue>) -> VortexResult<Scalar>
    requires { is_unnested (cell_of value) ≡ true }
    ensures ok { IfOk result (λ s. (s.of_type ≡ type_of dtype) × (s.value ≡ cell_of value) × (is_of (type_of dtype) (cell_of value) ≡ true)) }
    ensures fault { IfErr result (λ e. (e ≡ VortexError.Fault) × (is_of (type_of dtype) (cell_of value) ≡ false)) }
{
    match Scalar::try_new(dtype, value) {
        Ok(scalar) => Ok(scalar),
        Err(_) => Err(VortexError::Fault),
    }
}

/// Returns whether a comparison holds for two values that compare as `ordering`.
fn holds(operator: Operator, ordering: Ordering) -> bool
    ensures { result ≡ holds operator ordering }
{
    match operator {
        Operator::Eq => ordering.is_eq(),
        Operator::NotEq => ordering.is_ne(),
        Operator::Gt => ordering.is_gt(),
        Operator::Gte => ordering.is_ge(),
        Operator::Lt => ordering.is_lt(),
        Operator::Lte => ordering.is_le(),
        _ => false,
    }
}

/// Applies `operator` to two integers; `Fault` if there is no result, or no type can hold it.
fn exactly(operator: Operator, x: i128, y: i128) -> VortexResult<i128>
    ensures ok { IfOk result (λ z. (fit : ℤ → Cell) → calculated_by operator fit x y ≡ fit z) }
    ensures fault { IfErr result (λ e. (e ≡ VortexError.Fault) × ((fit : ℤ → Cell) → IsBounded fit → calculated_by operator fit x y ≡ fault)) }
{
    let result = match operator {
        Operator::Add => x.checked_add(y),
        Operator::Sub => x.checked_sub(y),
        Operator::Mul => x.checked_mul(y),
        Operator::Div => quotient(x, y),
        _ => None,
    };
    result.ok_or(VortexError::Fault)
}

/// `x / y` truncated toward zero; `None` on division by zero or overflow.
fn quotient(x: i128, y: i128) -> Option<i128>
    ensures { MatchOption result ((fit : ℤ → Cell) → IsBounded fit → divided fit x y ≡ fault) (λ z. (fit : ℤ → Cell) → divided fit x y ≡ fit z) }
{
    if y == 0 { None } else { x.checked_div(y) }
}
