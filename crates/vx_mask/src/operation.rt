//! Operations on bits, 64 at a time.

ghost use Rattle.std.specs.Prelude.{◌≡◌, ◌<◌, ◌==◌, ◌&&◌, ◌||◌, ℕ, Bool};
ghost use Rattle.std.specs.Int.{bit_at};
ghost use Rattle.std.specs.Ordering.{bool_cmp, is_eq, is_ne, is_lt, is_le, is_gt, is_ge};

/// An operation on two bits, applied to 64 pairs of bits at once. (own)
pub trait BitOperation {
    ghost bit: { Bool → Bool → Bool };

    /// Applies the operation to each bit of `lhs` and the bit of `rhs` in the same place.
    fn word(lhs: u64, rhs: u64) -> u64
        ensures { (i : ℕ) → i < 64 → (bit_at result i == 1) ≡ bit (bit_at lhs i == 1) (bit_at rhs i == 1) };
}

/// The operation `a == b` on bits. (own)
#[derive(Clone, Copy, Debug)]
pub struct BitEq;

impl BitOperation for BitEq {
    ghost bit = { λ a b. is_eq (bool_cmp a b) };

    #[inline]
    #[tactic(auto, using(crate::proofs::Operations::eq_of_words))]
    fn word(lhs: u64, rhs: u64) -> u64 {
        !(lhs ^ rhs)
    }
}

/// The operation `a != b` on bits. (own)
#[derive(Clone, Copy, Debug)]
pub struct BitNotEq;

impl BitOperation for BitNotEq {
    ghost bit = { λ a b. is_ne (bool_cmp a b) };

    #[inline]
    #[tactic(auto, using(crate::proofs::Operations::ne_of_words))]
    fn word(lhs: u64, rhs: u64) -> u64 {
        lhs ^ rhs
    }
}

/// The operation `a < b` on bits: `false` is less than `true`. (own)
#[derive(Clone, Copy, Debug)]
pub struct BitLt;

impl BitOperation for BitLt {
    ghost bit = { λ a b. is_lt (bool_cmp a b) };

    #[inline]
    #[tactic(auto, using(crate::proofs::Operations::lt_of_words))]
    fn word(lhs: u64, rhs: u64) -> u64 {
        !lhs & rhs
    }
}

/// The operation `a <= b` on bits: `false` is less than `true`. (own)
#[derive(Clone, Copy, Debug)]
pub struct BitLte;

impl BitOperation for BitLte {
    ghost bit = { λ a b. is_le (bool_cmp a b) };

    #[inline]
    #[tactic(auto, using(crate::proofs::Operations::le_of_words))]
    fn word(lhs: u64, rhs: u64) -> u64 {
        !lhs | rhs
    }
}

/// The operation `a > b` on bits: `false` is less than `true`. (own)
#[derive(Clone, Copy, Debug)]
pub struct BitGt;

impl BitOperation for BitGt {
    ghost bit = { λ a b. is_gt (bool_cmp a b) };

    #[inline]
    #[tactic(auto, using(crate::proofs::Operations::gt_of_words))]
    fn word(lhs: u64, rhs: u64) -> u64 {
        lhs & !rhs
    }
}

/// The operation `a >= b` on bits: `false` is less than `true`. (own)
#[derive(Clone, Copy, Debug)]
pub struct BitGte;

impl BitOperation for BitGte {
    ghost bit = { λ a b. is_ge (bool_cmp a b) };

    #[inline]
    #[tactic(auto, using(crate::proofs::Operations::ge_of_words))]
    fn word(lhs: u64, rhs: u64) -> u64 {
        lhs | !rhs
    }
}

/// The operation `a && b` on bits. (own)
#[derive(Clone, Copy, Debug)]
pub struct BitAnd;

impl BitOperation for BitAnd {
    ghost bit = { λ a b. a && b };

    #[inline]
    #[tactic(auto, using(crate::proofs::Operations::and_of_words))]
    fn word(lhs: u64, rhs: u64) -> u64 {
        lhs & rhs
    }
}

/// The operation `a || b` on bits. (own)
#[derive(Clone, Copy, Debug)]
pub struct BitOr;

impl BitOperation for BitOr {
    ghost bit = { λ a b. a || b };

    #[inline]
    #[tactic(auto, using(crate::proofs::Operations::or_of_words))]
    fn word(lhs: u64, rhs: u64) -> u64 {
        lhs | rhs
    }
}
