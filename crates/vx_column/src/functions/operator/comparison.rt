//! Comparisons.

ghost use Rattle.std.specs.Prelude.{◌≡◌, ◌<◌, ℕ, true, IfOk};
ghost use Rattle.std.specs.Ordering.{int_cmp};
ghost use Rattle.vx_value.specs.Errors.{OnlyOutOfMemory};
ghost use Rattle.vx_value.specs.Bytes.{bytes_cmp};
ghost use Rattle.vx_value.specs.Cell.{value};
ghost use Rattle.vx_value.specs.Order.{value_cmp};
ghost use Rattle.vx_value.specs.Types.{bool};
ghost use Rattle.vx_value.specs.Values.{Value, boolean, integer, bytes};
ghost use Rattle.vx_fn.specs.Binary.{is_comparison};
ghost use Rattle.vx_fn.specs.Comparisons.{holds};
ghost use Rattle.vx_fn.specs.declared.function.Operator.{Operator as OperatorOf};
ghost use Rattle.vx_fn.specs.declared.function.Operator.TheVariants.{Eq, NotEq, Lt, Lte};
ghost use Rattle.vx_tree.specs.Canonicals.{canonical_tree};
ghost use Rattle.vx_tree.specs.Tree.{dtype};
ghost use Rattle.vx_column.specs.Arguments.{bytes_in};
ghost use Rattle.vx_column.specs.Checks.{checked_rows};
ghost use Rattle.vx_column.specs.Compared.{HasBytesRow, is_compared};
ghost use Rattle.vx_column.specs.Computed.{IsColumnOfCells};
ghost use Rattle.vx_column.specs.Operands.{number_in, HasRow};
ghost use Rattle.vx_column.specs.ValidRows.{is_valid, HasValidity, nullability_in};

use crate::functions::kernel::{Operand, valid_bools};
use crate::functions::operator::checks::{RowCheck, check_rows};
use crate::rows::{BytesOperand, ValidRows};
use std::alloc::{AllocError, Global};
use std::marker::PhantomData;
use vx_fn::Operator;
use vx_mask::BitBuffer;
use vx_tree::{Canonical, NativeNumber};
use vx_value::VortexResult;

/// A comparison operator: `>` and `>=` are `<` and `<=` with swapped operands.
pub(crate) trait Comparison {
    // its variant of `Operator`
    ghost operator: { OperatorOf };

    /// Compares one row.
    fn compare_row<T: NativeNumber>(lhs: T, rhs: T) -> bool
        ensures { result ≡ holds operator (int_cmp (T.value lhs) (T.value rhs)) };

    /// Compares bytes by the first byte that differs; a prefix comes before the longer bytes.
    fn compare_bytes(lhs: &[u8], rhs: &[u8]) -> bool
        ensures { result ≡ holds operator (bytes_cmp lhs.now rhs.now) };
}

/// `x == y`.
pub(crate) struct Equal;

impl Comparison for Equal {
    ghost operator = { Eq };

    #[inline]
    fn compare_row<T: NativeNumber>(lhs: T, rhs: T) -> bool {
        lhs == rhs
    }

    #[inline]
    #[tactic(auto, using(vx_value::proofs::BytesLemmas::bytes_eq_by_cmp))]
    fn compare_bytes(lhs: &[u8], rhs: &[u8]) -> bool {
        lhs == rhs
    }
}

/// `x != y`.
pub(crate) struct Different;

impl Comparison for Different {
    ghost operator = { NotEq };

    #[inline]
    fn compare_row<T: NativeNumber>(lhs: T, rhs: T) -> bool {
        lhs != rhs
    }

    #[inline]
    #[tactic(auto, using(vx_value::proofs::BytesLemmas::bytes_eq_by_cmp))]
    fn compare_bytes(lhs: &[u8], rhs: &[u8]) -> bool {
        lhs != rhs
    }
}

/// `x < y`.
pub(crate) struct Below;

impl Comparison for Below {
    ghost operator = { Lt };

    #[inline]
    fn compare_row<T: NativeNumber>(lhs: T, rhs: T) -> bool {
        lhs < rhs
    }

    #[inline]
    fn compare_bytes(lhs: &[u8], rhs: &[u8]) -> bool {
        lhs.cmp(rhs).is_lt()
    }
}

/// `x <= y`.
pub(crate) struct NotAbove;

impl Comparison for NotAbove {
    ghost operator = { Lte };

    #[inline]
    fn compare_row<T: NativeNumber>(lhs: T, rhs: T) -> bool {
        lhs <= rhs
    }

    #[inline]
    fn compare_bytes(lhs: &[u8], rhs: &[u8]) -> bool {
        lhs.cmp(rhs).is_le()
    }
}

/// Rows of values that have an order.
pub(crate) trait OrderedRows: Copy {
    // row i exists
    ghost has_row: { Self → ℕ → Type 0 };

    // the value at row i
    ghost row_value: { Self → ℕ → Value };

    /// Compares the values of `self` and `other` at row `index`, which must exist, by `C`.
    fn compare_at<C: Comparison>(&self, other: &Self, index: usize) -> bool
        requires first { has_row self.now index }
        requires second { has_row other.now index }
        ensures { result ≡ holds C.operator (value_cmp (row_value self.now index) (row_value other.now index)) };
}

impl<'a, T: NativeNumber> OrderedRows for Operand<'a, T> {
    ghost has_row = { HasRow };

    ghost row_value = { λ s i. integer (number_in T.value s i) };

    #[inline]
    fn compare_at<C: Comparison>(&self, other: &Self, index: usize) -> bool {
        C::compare_row(self.row(index), other.row(index))
    }
}

impl<'a> OrderedRows for BytesOperand<'a> {
    ghost has_row = { HasBytesRow };

    ghost row_value = { λ s i. bytes (bytes_in s i) };

    #[inline]
    fn compare_at<C: Comparison>(&self, other: &Self, index: usize) -> bool {
        C::compare_bytes(self.value(index), other.value(index))
    }
}

/// A comparison of the rows of two operands by `C`.
#[derive(Drop)]
struct Compared<R, C> {
    left: R,
    right: R,
    operator: PhantomData<C>,
}

impl<R, C> Compared<R, C> {
    /// Returns the comparison of `left` and `right`.
    fn of(left: R, right: R) -> Compared<R, C>
        ensures left { result.left ≡ left }
        ensures right { result.right ≡ right }
    {
        Compared {
            left,
            right,
            operator: PhantomData,
        }
    }
}

impl<R: OrderedRows, C: Comparison> RowCheck for Compared<R, C> {
    ghost has_row = { λ s i. R.has_row s.left i × R.has_row s.right i };

    ghost answer = { λ s. is_compared C.operator (R.row_value s.left) (R.row_value s.right) };

    #[inline]
    fn check_row(&self, index: usize) -> bool {
        self.left.compare_at::<C>(&self.right, index)
    }
}

/// Compares the `valid` rows of `left` and `right`, `len` rows each, by `operator`, which must be a comparison. The other rows
/// are null. Fails only with `OutOfMemory`.
#[tactic(auto, using(crate::proofs::ValidRowsLemmas::counted))]
pub(crate) fn compare_ordered<R: OrderedRows>(
    alloc: Global,
    operator: Operator,
    left: R,
    right: R,
    valid: &ValidRows,
    len: usize,
) -> VortexResult<Canonical>
    requires operator { is_comparison operator ≡ true }
    requires left { (i : ℕ) → i < len → R.has_row left i }
    requires right { (i : ℕ) → i < len → R.has_row right i }
    requires valid { HasValidity valid.now len }
    ensures ok { IfOk result (λ c. (dtype (canonical_tree c) ≡ bool (nullability_in valid.now))
        × IsColumnOfCells valid.now (λ i. value (boolean (is_compared operator (R.row_value left) (R.row_value right) i))) len (canonical_tree c)) }
    ensures err { OnlyOutOfMemory result }
{
    let bits = compare_rows(alloc, operator, left, right, valid, len)?;
    valid_bools(alloc, bits, valid, len)
}

/// Compares the `valid` rows of `left` and `right`, `len` rows each, by `operator`, which must be a comparison; the other bits
/// are `false`.
fn compare_rows<R: OrderedRows>(
    alloc: Global,
    operator: Operator,
    left: R,
    right: R,
    valid: &ValidRows,
    len: usize,
) -> Result<BitBuffer, AllocError>
    requires operator { is_comparison operator ≡ true }
    requires left { (i : ℕ) → i < len → R.has_row left i }
    requires right { (i : ℕ) → i < len → R.has_row right i }
    requires valid { HasValidity valid.now len }
    ensures { IfOk result (λ b. b ≡ checked_rows (is_valid valid.now) (is_compared operator (R.row_value left) (R.row_value right)) len) }
{
    match operator {
        Operator::Eq => check_rows(alloc, Compared::<R, Equal>::of(left, right), valid, len),
        Operator::NotEq => check_rows(alloc, Compared::<R, Different>::of(left, right), valid, len),
        Operator::Gt => check_rows(alloc, Compared::<R, Below>::of(right, left), valid, len),
        Operator::Gte => check_rows(alloc, Compared::<R, NotAbove>::of(right, left), valid, len),
        Operator::Lt => check_rows(alloc, Compared::<R, Below>::of(left, right), valid, len),
        Operator::Lte => check_rows(alloc, Compared::<R, NotAbove>::of(left, right), valid, len),
        _ => unreachable!(),
    }
}
