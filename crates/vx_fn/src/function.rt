//! Scalar functions, as in the original's `scalar_fn` module.

ghost use Rattle.std.specs.Prelude.{◌≡◌, ◌==◌, ℕ, option_map, slice_get};
ghost use Rattle.vx_fn.specs.ArgumentNames.{names_in};
ghost use Rattle.vx_fn.specs.Functions.{function_id, arity, argument_names};
ghost use Rattle.vx_fn.specs.Binary.{is_comparison, is_logical};

use crate::argument_names::ArgumentNames;
use crate::functions::between::BetweenOptions;
use crate::functions::by_function;
use crate::functions::pack::PackOptions;
use crate::row_function::RowFunction;
use vx_value::{DType, Id, Name, Scalar};

/// A binary operator.
#[derive(Clone, Copy, Debug, PartialEq, Eq, Hash)]
pub enum Operator {
    /// `lhs == rhs`.
    Eq,
    /// `lhs != rhs`.
    NotEq,
    /// `lhs > rhs`.
    Gt,
    /// `lhs >= rhs`.
    Gte,
    /// `lhs < rhs`.
    Lt,
    /// `lhs <= rhs`.
    Lte,
    /// `lhs + rhs`. Overflow is a fault.
    Add,
    /// `lhs - rhs`. Overflow is a fault.
    Sub,
    /// `lhs * rhs`. Overflow is a fault.
    Mul,
    /// `lhs / rhs`, truncated toward zero. Overflow and a divisor of 0 are faults.
    Div,
    /// `lhs && rhs`: false if a side is, else null if a side is.
    And,
    /// `lhs || rhs`: true if a side is, else null if a side is.
    Or,
}

impl Operator {
    /// Checks whether the operator is a comparison, whose result is a boolean. (own)
    pub fn is_comparison(self) -> bool
        ensures { result ≡ is_comparison self }
    {
        match self {
            Operator::Eq | Operator::NotEq => true,
            Operator::Gt | Operator::Gte | Operator::Lt | Operator::Lte => true,
            _ => false,
        }
    }

    /// Checks whether the operator joins two booleans, null among them. (own)
    pub fn is_logical(self) -> bool
        ensures { result ≡ is_logical self }
    {
        match self {
            Operator::And | Operator::Or => true,
            _ => false,
        }
    }
}

/// A scalar function: computes one value for each row of its arguments.
#[derive(Clone, Debug, PartialEq, Eq, Hash, Drop)]
pub enum ScalarFnRef {
    /// A binary operator, of the arguments `lhs` and `rhs`.
    Binary(Operator),
    /// Whether `array` lies between `lower` and `upper`.
    Between(BetweenOptions),
    /// The negation of a boolean, the argument `input`.
    Not,
    /// `input` if `mask` is true, else null.
    Mask,
    /// `if_true` if `mask` is true, else `if_false`.
    Zip,
    /// `input`, or `fill_value` if it is null.
    FillNull,
    /// Whether `input` is null.
    IsNull,
    /// Whether `input` isn't null.
    IsNotNull,
    /// The field of this name of `input`, a struct.
    GetItem(Name),
    /// A struct of the arguments.
    Pack(PackOptions),
    /// Whether `needle` is an element of `list`.
    ListContains,
    /// This list, of no arguments.
    PreparedSet(Scalar),
    /// `input` as a value of this type.
    Cast(DType),
}

/// The number of arguments that a function takes.
#[derive(Clone, Copy, Debug, PartialEq, Eq)]
pub enum Arity {
    /// Exactly this number.
    Exact(usize),
}

impl Arity {
    /// Checks whether the function takes `arguments` arguments.
    pub fn matches(self, arguments: usize) -> bool
        ensures { (n : ℕ) → self ≡ Arity.Exact n → result ≡ (arguments == n) }
    {
        match self {
            Arity::Exact(count) => arguments == count,
        }
    }
}

impl ScalarFnRef {
    /// Returns the function's id, and the names of its arguments, in order.
    fn signature(&self) -> (Id, ArgumentNames<'_>)
        ensures id { result.0 ≡ function_id self.now }
        ensures names { names_in result.1 ≡ argument_names self.now }
    {
        by_function!(self, function => function.signature())
    }

    /// Returns the function's id.
    pub fn id(&self) -> Id
        ensures { result ≡ function_id self.now }
    {
        self.signature().0
    }

    /// Returns the name of the argument at `index`, counted from 0, for example `lhs` or `input`. Returns `None`
    /// if the function has no such argument.
    pub fn child_name(&self, index: usize) -> Option<&str>
        ensures { option_map (λ s. s.now) result ≡ slice_get (argument_names self.now) index }
    {
        let (_, names) = self.signature();
        names.get(index)
    }

    /// Returns the number of arguments that the function takes.
    pub fn arity(&self) -> Arity
        ensures { result ≡ Arity.Exact (arity self.now) }
    {
        let (_, names) = self.signature();
        Arity::Exact(names.len())
    }
}
